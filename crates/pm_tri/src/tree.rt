ghost use Rattle.std.specs.Prelude.{◌≡◌, ℕ};

use pm_brackets::{OPEN, occurrences};
use std::alloc::AllocError;
use std::marker::Model;

/// Why a word isn't the word of a stem tree, in the order in which the rules are tried. A place counts from 1 along the word;
/// the root node is named by 0, and every other node by the place of its `(`.
#[derive(Clone, Copy, Debug, PartialEq, Eq)]
pub enum TriTreeRefusal {
    /// There is no memory left. It may come at any word.
    Memory,
    /// A letter that is none of the three, a `)` that closes nothing or the last `(` that isn't closed: the least such place.
    Text { place: u32 },
    /// More letters than 4 times the third of `MAX_EDGES`, rounded down, less 3: how many.
    TooMany { letters: u64 },
    /// The least node that hasn't exactly two stems, the plant being one of the root node.
    Stems { place: u32 },
}

impl From<AllocError> for TriTreeRefusal {
    ghost use Rattle.pm_tri.specs.declared.tree.TriTreeRefusal.TheVariants.{Memory};

    ghost from_gives = { λ _ refusal. refusal ≡ Memory };

    fn from(_error: AllocError) -> TriTreeRefusal {
        TriTreeRefusal::Memory
    }
}

/// A stem tree (Poulalhon and Schaeffer 2006), seen as the letters of its word.
#[derive(Drop)]
pub struct TriTree {
    pub(crate) letters: Vec<u8>,
}

impl Model for TriTree {
    ghost use Rattle.std.specs.Prelude.{List, ℕ};
    ghost use Rattle.pm_tri.specs.StemTree.{IsStemTree};

    ghost Value = { List ℕ };

    ghost view = { λ t. t.letters.items };

    ghost invariant = { λ t. IsStemTree t.letters.items };
}

impl TriTree {
    ghost use Rattle.std.specs.Prelude.{◌≡◌};
    ghost use Rattle.pm_tri.specs.StemTree.{IsStemTree, nodes};

    /// The letters of the word, in order; the k-th, from 1, stands at place k.
    pub fn letters(&self) -> &[u8]
        ensures letters { result.now ≡ self.now }
        ensures valid { IsStemTree self.now }
    {
        &self.letters
    }

    /// The nodes, the root node among them: half as many as the stems with the plant.
    pub fn nodes(&self) -> u32
        ensures { result ≡ nodes self.now }
    {
        occurrences(&self.letters, OPEN) + 1
    }
}
