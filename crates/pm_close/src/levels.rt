//! The levels of the darts of a closure.
ghost use Rattle.std.specs.Prelude.{◌≡◌, suc, ◌^◌, ◌<◌, length, IfOk};
ghost use Rattle.pm_perm.specs.Permutation.{IsPermutationList};
ghost use Rattle.pm_close.specs.steps.Levelling.{IsLow, AreLevelsAt};

use pm_trees::{BUD, LEAF};
use std::alloc::{AllocError, Global};
use std::marker::Model;

/// The level of each dart of a closure. The level of a place of the contour is the sum over the places before it, where
/// the plant and each bud count +1, each other leaf -1, and brackets nothing (Schaeffer 1997).
#[derive(Drop)]
pub struct Levels {
    by_dart: Vec<u32>,
}

impl Model for Levels {
    ghost use Rattle.std.specs.Prelude.{List, ℕ};

    ghost Value = { List ℕ };

    ghost view = { λ levels. levels.by_dart.items };
}

impl Levels {
    /// As many numbers as there are darts: entry `d` is the level of dart `d`.
    pub fn values(&self) -> &[u32]
        ensures { result.now ≡ self.now }
    {
        &self.by_dart
    }
}

// The levels of the places of a word, each at the dart of the place.
pub(crate) fn levels_of(alloc: Global, letters: &[u8], darts: &[u32]) -> Result<Levels, AllocError>
    requires low { IsLow letters.now }
    requires small { length darts.now < 2 ^ 31 }
    requires each_place { length darts.now ≡ suc (length letters.now) }
    requires permutation { IsPermutationList darts.now }
    ensures { IfOk result (λ levels. AreLevelsAt letters.now darts.now levels) }
{
    let mut by_dart = vec![in alloc; 0; darts.len()]?;
    let mut level: u32 = 1;
    for index in 0..letters.len() {
        by_dart[darts[index + 1] as usize] = level;
        match letters[index] {
            BUD => level += 1,
            LEAF => level -= 1,
            _ => {}
        }
    }
    Ok(Levels { by_dart })
}
