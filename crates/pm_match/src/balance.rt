ghost use Rattle.std.specs.Prelude.{◌≡◌, suc, ◌+◌, ◌^◌, ◌<◌, length, ◌↔◌, IsTrue, MatchOption};
ghost use Rattle.pm_trees.specs.declared.letters.TheConstants.{LEAF as leaf, BUD as bud};
ghost use Rattle.pm_brackets.specs.Word.{count};
ghost use Rattle.pm_trees.specs.Word.{contour};
ghost use Rattle.pm_match.specs.Pair.{IsPair, IsBalanced};

use pm_trees::{BUD, LEAF, Tree};

// Whether the plant is free, in a word of a tree: no bud is left that waits for a leaf.
fn is_plant_free(letters: &[u8]) -> bool
    requires { count leaf (contour letters.now) ≡ count bud (contour letters.now) + 2 }
    ensures { IsTrue result ↔ IsBalanced (contour letters.now) }
{
    let mut waiting: usize = 0;
    'word: for letter in letters {
        match *letter {
            BUD => waiting += 1,
            LEAF => waiting = waiting.saturating_sub(1),
            _ => {}
        }
    }
    waiting == 0
}

/// Whether the tree is balanced: its plant is in no pair.
pub fn is_balanced(tree: &Tree) -> bool
    ensures { IsTrue result ↔ IsBalanced (contour tree.now) }
{
    is_plant_free(tree.letters())
}

// The place of the bud that meets the plant: read backwards from the plant, the first one for which no leaf is left.
fn find_plant_bud(letters: &[u8]) -> Option<u32>
    requires short { suc (length letters.now) < 2 ^ 32 }
    requires surplus { count leaf (contour letters.now) ≡ count bud (contour letters.now) + 2 }
    ensures { MatchOption result
        (IsBalanced (contour letters.now))
        (λ place. IsPair (contour letters.now) place 0) }
{
    let mut left: usize = 0;
    'back: for index in (0..letters.len()).rev() {
        match letters[index] {
            LEAF => left += 1,
            BUD if left == 0 => return Some(index as u32 + 1),
            BUD => left -= 1,
            _ => {}
        }
    }
    None
}

/// The place of the bud that the plant is paired with, or `None` where the tree is balanced.
pub fn plant_bud(tree: &Tree) -> Option<u32>
    ensures { MatchOption result
        (IsBalanced (contour tree.now))
        (λ place. IsPair (contour tree.now) place 0) }
{
    find_plant_bud(tree.letters())
}
