//! Whether a stem tree is balanced: its plant is free and directly follows a free stem.
ghost use Rattle.std.specs.Prelude.{◌<◌, ◌^◌, ℕ, MatchOption, length};
ghost use Rattle.pm_tri.specs.Balance.{IsWhyNotBalanced};
ghost use Rattle.pm_tri.specs.Runs.{IsClosing, IsFreeBefore, IsFreeStem};
ghost use Rattle.pm_tri.specs.StemTree.{IsStemTree, contour};

use crate::letters::STEM;
use crate::tree::TriTree;

/// Why a stem tree isn't balanced, in the order in which the rules are tried.
#[derive(Clone, Copy, Debug, PartialEq, Eq)]
pub enum Imbalance {
    /// The plant closes: at the side at this place.
    Closes { side: u32 },
    /// The plant is free, and doesn't directly follow the free stem before it, which stands at this place.
    Follows { stem: u32 },
}

/// The side at which the plant closes; none where it is free.
fn plant_side(word: &[u8]) -> Option<u32>
    requires tree { IsStemTree word.now }
    ensures { MatchOption result (IsFreeStem (contour word.now) 0) (IsClosing (contour word.now) 0) }
{
    // How far the letters read so far fall below the plant's corner.
    let mut below: u32 = 1;
    'letters: for (i, letter) in word.iter().enumerate() {
        if *letter == STEM {
            below += 1;
        } else if below == 0 {
            return Some(i as u32 + 1);
        } else {
            below -= 1;
        }
    }
    None
}

/// The last free stem before the plant, which is free itself.
fn stem_before_plant(word: &[u8]) -> u32
    requires tree { IsStemTree word.now }
    requires free { IsFreeStem (contour word.now) 0 }
    ensures { (apart : ℕ) × IsFreeBefore (contour word.now) result apart 0 }
{
    // How far the letters from here on rise above this corner, at most.
    let mut rise: u32 = 0;
    'back: for index in (0..word.len()).rev() {
        if word[index] != STEM {
            rise += 1;
        } else if rise < 2 {
            return index as u32 + 1;
        } else {
            rise -= 1;
        }
    }
    0
}

/// Why the tree isn't balanced; none where it is. It takes one scan forwards and one backwards, and no memory.
pub fn why_not_balanced(tree: &TriTree) -> Option<Imbalance>
    ensures { IsWhyNotBalanced (contour tree.now) result }
{
    let word = tree.letters();
    if let Some(side) = plant_side(word) {
        return Some(Imbalance::Closes { side });
    }
    let stem = stem_before_plant(word);
    if stem as usize == word.len() {
        None
    } else {
        Some(Imbalance::Follows { stem })
    }
}
