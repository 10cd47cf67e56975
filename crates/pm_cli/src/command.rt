//! The commands, and their first words.
ghost use Rattle.std.specs.Prelude.{◌≡◌, ◌≢◌, string_bytes, MatchOption};
ghost use Rattle.pm_cli.specs.declared.command.Verb.{Verb};
ghost use Rattle.pm_cli.specs.Commands.{verb_word};

use crate::class::{Checked, Class, Size};
use crate::close::Trees;

/// A command, by where its answer comes from.
#[derive(Drop)]
pub enum Command {
    /// Reads a file and answers to it.
    Reads(Reader),
    /// Reads nothing, and makes maps of a size.
    Makes { task: Maker, size: Size },
}

/// A command that reads a file.
#[derive(Drop)]
pub enum Reader {
    /// `close eulerian` and `close tri`: closes a tree of that kind.
    Close(Trees),
    /// `open eulerian`: the tree that a map opens to, where its vertices have even degrees.
    OpenEulerian,
    /// Prints a text for any map.
    OfMap(MapTask),
    /// `check CLASS`: counts the vertices, edges and faces of a map of the class.
    Check(Checked),
    /// `unsample CLASS`: answers the choices of a map of the class and a residue.
    Unsample(Class),
    /// `sample CLASS SIZE`: answers the map and the residue of a list of choices.
    Sample(Size),
}

/// What is printed for a map, whatever its class. The word of each is a command.
#[derive(Clone, Copy)]
pub enum MapTask {
    /// `canon`: the canonical map of the map.
    Canon,
    /// `medial`: that of its medial map.
    Medial,
    /// `unmedial`: that of the map whose medial map it is.
    Unmedial,
    /// `dual`: that of its dual.
    Dual,
    /// `layers`: the canonical map of the map, and for each of its darts how far its face is from the root's face, and the
    /// parent of its face.
    Layers,
}

/// What is done with a size.
#[derive(Clone, Copy)]
pub enum Maker {
    /// `draw CLASS SIZE SEED COUNT`: draws lists of choices, and answers each with its map and residue.
    Draw { seed: u64, count: u64 },
    /// `trip CLASS SIZE SEED`: draws a list of choices, samples it, unsamples what it gave, and counts the vertices, edges
    /// and faces of its map.
    Trip { seed: u64 },
    /// `census CLASS SIZE`: answers each map of the class and size, with the number of its lists of choices.
    Census,
}

/// What the first word of a command tells to do.
#[derive(Clone, Copy)]
pub enum Verb {
    Close,
    Open,
    OfMap(MapTask),
    Check,
    Sample,
    Unsample,
    Draw,
    Trip,
    Census,
}

impl Verb {
    // The verb that the word is, where it is one.
    pub(crate) fn of_word(word: &String) -> Option<Verb>
        ensures { MatchOption result ((verb : Verb) → string_bytes word.now ≢ verb_word verb) (λ verb. string_bytes word.now ≡ verb_word verb) }
    {
        match word.as_str() {
            "close" => Some(Verb::Close),
            "open" => Some(Verb::Open),
            "canon" => Some(Verb::OfMap(MapTask::Canon)),
            "medial" => Some(Verb::OfMap(MapTask::Medial)),
            "unmedial" => Some(Verb::OfMap(MapTask::Unmedial)),
            "dual" => Some(Verb::OfMap(MapTask::Dual)),
            "layers" => Some(Verb::OfMap(MapTask::Layers)),
            "check" => Some(Verb::Check),
            "sample" => Some(Verb::Sample),
            "unsample" => Some(Verb::Unsample),
            "draw" => Some(Verb::Draw),
            "trip" => Some(Verb::Trip),
            "census" => Some(Verb::Census),
            _ => None,
        }
    }
}
