//! What sampling answers, and its undoing.
ghost use Rattle.std.specs.Prelude.{◌≡◌};

use pm_lists::{ListRefusal, NumList};
use pm_map::{ClassRefusal, RootedMap};
use std::alloc::AllocError;

/// A sampled map and the rest of its choices.
#[derive(Drop)]
pub struct Sample {
    /// The map: in its canonical numbering from `sample` and `sample_valid`, in any numbering from `sample_unnamed`. In the
    /// canonical one the root is dart 0, and maps that differ only in the numbers of their darts have one rotation.
    pub map: RootedMap,
    /// What is left of the choices: a list that is valid for the class's residue bounds.
    pub residue: NumList,
}

/// Why a list of choices gave no map.
#[derive(Clone, Copy, Debug, PartialEq, Eq)]
pub enum SampleRefusal {
    /// There is no memory left. It may come at any list.
    Memory,
    /// The choices aren't valid for the class's choice bounds.
    List(ListRefusal),
}

impl From<AllocError> for SampleRefusal {
    ghost use Rattle.pm_class.specs.declared.sample.SampleRefusal.TheVariants.{Memory};

    ghost from_gives = { λ _ refusal. refusal ≡ Memory };

    fn from(_error: AllocError) -> SampleRefusal {
        SampleRefusal::Memory
    }
}

/// Why a map and a residue gave no choices.
#[derive(Clone, Copy, Debug, PartialEq, Eq)]
pub enum UnsampleRefusal {
    /// There is no memory left. It may come at any map.
    Memory,
    /// The map isn't in the class: the first of the class's rules that it breaks, and never `Memory`.
    Class(ClassRefusal),
    /// The residue isn't valid for the class's residue bounds of the map's size.
    List(ListRefusal),
}

impl From<AllocError> for UnsampleRefusal {
    ghost use Rattle.pm_class.specs.declared.sample.UnsampleRefusal.TheVariants.{Memory};

    ghost from_gives = { λ _ refusal. refusal ≡ Memory };

    fn from(_error: AllocError) -> UnsampleRefusal {
        UnsampleRefusal::Memory
    }
}
