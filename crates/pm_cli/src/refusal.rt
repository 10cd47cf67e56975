ghost use Rattle.std.specs.Prelude.{◌≡◌, IfOk, string_bytes};
ghost use Rattle.pm_cli.specs.Lines.{line, text_of_limit, text_of_list, text_of_map_rule, text_of_rule, text_of_refusal, status_of_refusal, status_of_stop};

use pm_lists::ListRefusal;
use std::alloc::{AllocError, Global};

/// A limit that the input passes, or the size of a census.
#[derive(Clone, Copy, Debug, PartialEq, Eq)]
pub enum Limit {
    /// More than `MAX_BYTES` bytes.
    Bytes,
    /// More letters than a tree may have: how many.
    Letters { letters: u64 },
    /// More edges than the command takes: how many.
    Edges { edges: u64 },
    /// More lists of choices than a census takes.
    Lists,
}

/// A rule that a map breaks. Darts are those of the file.
#[derive(Clone, Copy, Debug, PartialEq, Eq)]
pub enum MapRule {
    /// The least dart that stands on no line.
    Permutation { dart: u32 },
    /// The least dart that isn't reached from the root.
    Connected { dart: u32 },
    /// Vertices less edges plus faces, where that isn't 2.
    Euler { number: i64 },
    /// There is no dart, and the class has no such map.
    Empty,
    /// The least dart whose vertex has a degree that the class doesn't have.
    Vertex { dart: u32 },
    /// The same of its face.
    Face { dart: u32 },
    /// The least dart whose twin is at its own vertex.
    Loop { dart: u32 },
    /// The least dart that isn't alone with its vertex and far vertex.
    Double { dart: u32 },
}

/// A rule that a tree breaks. Places count from 0, the plant.
#[derive(Clone, Copy, Debug, PartialEq, Eq)]
pub enum TreeRule {
    /// The least node whose degree is odd or too great.
    Degree { place: u32 },
    /// The least node with a wrong number of buds.
    Buds { place: u32 },
    /// The plant is in a pair with this bud.
    Matched { bud: u32 },
    /// The least node that hasn't two stems.
    Stems { place: u32 },
    /// The plant closes: at this side.
    Closes { side: u32 },
    /// The plant is free, and doesn't directly follow this free stem before it.
    Follows { stem: u32 },
}

/// Why words and bytes have no text for an answer.
#[derive(Clone, Copy, Debug, PartialEq, Eq)]
pub enum Refusal {
    /// The words are no command; so many of them begin one.
    Usage { matched: u32 },
    /// The first line, counted from 1, that breaks the form of the file.
    Text { line: u32 },
    /// A limit that is passed.
    Limited(Limit),
    /// A rule that the map breaks.
    Map(MapRule),
    /// A rule that the tree breaks.
    Tree(TreeRule),
    /// What is wrong with the list, by its bounds.
    Invalid(ListRefusal),
}

/// Why a run stopped short of its answer.
#[derive(Clone, Copy, Debug, PartialEq, Eq)]
pub enum Stop {
    /// The words and the bytes are refused.
    Refused(Refusal),
    /// The input failed.
    Read,
    /// The output failed.
    Write,
    /// Memory is wanting.
    Memory,
}

impl Refusal {
    // The status that tells it.
    pub(crate) fn status(self) -> u8
        ensures { result ≡ status_of_refusal self }
    {
        match self {
            Refusal::Usage { .. } => 2,
            Refusal::Text { .. } => 3,
            Refusal::Limited(_) => 7,
            Refusal::Map(_) => 6,
            Refusal::Tree(_) => 12,
            Refusal::Invalid(_) => 4,
        }
    }

    // The line that tells it.
    pub(crate) fn line(self, alloc: Global) -> Result<String, AllocError>
        ensures { IfOk result (λ text. string_bytes text ≡ line (text_of_refusal self)) }
    {
        match self {
            Refusal::Usage { matched } => format!(in alloc; "planarmap: usage {matched}\n"),
            Refusal::Text { line } => format!(in alloc; "planarmap: text {line}\n"),
            Refusal::Limited(limit) => limit.line(alloc),
            Refusal::Map(rule) => rule.line(alloc),
            Refusal::Tree(rule) => rule.line(alloc),
            Refusal::Invalid(list) => list_line(alloc, list),
        }
    }
}

// The line that tells what is wrong with a list.
fn list_line(alloc: Global, list: ListRefusal) -> Result<String, AllocError>
    ensures { IfOk result (λ text. string_bytes text ≡ line (text_of_list list)) }
{
    match list {
        ListRefusal::Length { want, have } => {
            format!(in alloc; "planarmap: list length {want} {have}\n")
        }
        ListRefusal::Entry {
            place,
            value,
            bound,
        } => format!(in alloc; "planarmap: list entry {place} {value} {bound}\n"),
    }
}

impl Limit {
    fn line(self, alloc: Global) -> Result<String, AllocError>
        ensures { IfOk result (λ text. string_bytes text ≡ line (text_of_limit self)) }
    {
        match self {
            Limit::Bytes => String::from_str(alloc, "planarmap: limit bytes\n"),
            Limit::Letters { letters } => {
                format!(in alloc; "planarmap: limit letters {letters}\n")
            }
            Limit::Edges { edges } => format!(in alloc; "planarmap: limit edges {edges}\n"),
            Limit::Lists => String::from_str(alloc, "planarmap: limit lists\n"),
        }
    }
}

impl MapRule {
    fn line(self, alloc: Global) -> Result<String, AllocError>
        ensures { IfOk result (λ text. string_bytes text ≡ line (text_of_map_rule self)) }
    {
        match self {
            MapRule::Permutation { dart } => {
                format!(in alloc; "planarmap: map permutation {dart}\n")
            }
            MapRule::Connected { dart } => format!(in alloc; "planarmap: map connected {dart}\n"),
            MapRule::Euler { number } => format!(in alloc; "planarmap: map euler {number}\n"),
            MapRule::Empty => String::from_str(alloc, "planarmap: map empty\n"),
            MapRule::Vertex { dart } => format!(in alloc; "planarmap: map vertex {dart}\n"),
            MapRule::Face { dart } => format!(in alloc; "planarmap: map face {dart}\n"),
            MapRule::Loop { dart } => format!(in alloc; "planarmap: map loop {dart}\n"),
            MapRule::Double { dart } => format!(in alloc; "planarmap: map double {dart}\n"),
        }
    }
}

impl TreeRule {
    fn line(self, alloc: Global) -> Result<String, AllocError>
        ensures { IfOk result (λ text. string_bytes text ≡ line (text_of_rule self)) }
    {
        match self {
            TreeRule::Degree { place } => format!(in alloc; "planarmap: tree degree {place}\n"),
            TreeRule::Buds { place } => format!(in alloc; "planarmap: tree buds {place}\n"),
            TreeRule::Matched { bud } => format!(in alloc; "planarmap: tree matched {bud}\n"),
            TreeRule::Stems { place } => format!(in alloc; "planarmap: tree stems {place}\n"),
            TreeRule::Closes { side } => format!(in alloc; "planarmap: tree closes {side}\n"),
            TreeRule::Follows { stem } => format!(in alloc; "planarmap: tree follows {stem}\n"),
        }
    }
}

impl Stop {
    // The status that tells it.
    pub(crate) fn status(self) -> u8
        ensures { result ≡ status_of_stop self }
    {
        match self {
            Stop::Refused(refusal) => refusal.status(),
            Stop::Read => 5,
            Stop::Write => 8,
            Stop::Memory => 9,
        }
    }
}
