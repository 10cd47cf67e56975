//! The class that a map text of version 2 names.
use std::marker::Model;

/// A list of pairs of numbers of 64 bits, as a degree and a count. Contracts see it as a list of pairs.
#[derive(Drop)]
pub struct PairList {
    entries: Vec<(u64, u64)>,
}

impl Model for PairList {
    ghost use Rattle.std.specs.Prelude.{List, ℕ};

    ghost Value = { List (ℕ × ℕ) };

    ghost view = { λ list. list.entries.items };
}

impl PairList {
    ghost use Rattle.std.specs.Prelude.{◌≡◌};

    /// The list of these pairs.
    pub fn of(pairs: Vec<(u64, u64)>) -> PairList
        ensures { result ≡ pairs.items }
    {
        PairList { entries: pairs }
    }

    /// The pairs, in order.
    pub fn pairs(&self) -> &[(u64, u64)]
        ensures { result.now ≡ self.now }
    {
        &self.entries
    }
}

/// The class that a map text names, and the size of the map in it.
#[derive(Drop)]
pub enum ClassLine {
    /// No class is named.
    Unnamed,
    /// Quartic maps with so many vertices.
    Quartic(u64),
    /// Maps with so many edges.
    General(u64),
    /// Triangulations of this size, which have two more vertices.
    Tri(u64),
    /// Maps whose vertices have these degrees, as many of each as its pair says.
    Eulerian(PairList),
    /// Maps whose faces have these degrees, as many of each as its pair says.
    Bipartite(PairList),
}
