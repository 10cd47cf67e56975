ghost use Rattle.std.specs.Prelude.{◌≡◌, suc, ◌+◌, ◌^◌, ◌<◌, length};
ghost use Rattle.pm_trees.specs.declared.letters.TheConstants.{LEAF as leaf, BUD as bud};
ghost use Rattle.pm_brackets.specs.Word.{count};
ghost use Rattle.pm_trees.specs.Word.{contour};
ghost use Rattle.pm_match.specs.FreeLeaves.{AreFreeLeaves};

use pm_trees::{BUD, LEAF, Tree};

// The places of the two free leaves of a word of a tree. They are the last two record lows, the leaves that find no bud waiting
// when the word is read once from the plant on; the plant is the first of those.
fn last_two_lows(letters: &[u8]) -> (u32, u32)
    requires short { suc (length letters.now) < 2 ^ 32 }
    requires surplus { count leaf (contour letters.now) ≡ count bud (contour letters.now) + 2 }
    ensures { AreFreeLeaves (contour letters.now) result.0 result.1 }
{
    let mut waiting: u32 = 0;
    let mut first: u32 = 0;
    let mut second: u32 = 0;
    'letters: for index in 0..letters.len() {
        match letters[index] {
            BUD => waiting += 1,
            LEAF if waiting > 0 => waiting -= 1,
            LEAF => {
                first = second;
                second = index as u32 + 1;
            }
            _ => {}
        }
    }
    (first, second)
}

/// The places of the two free leaves of a tree, in rising order, in one pass over its letters and without a list: what
/// `matching` tells of them.
pub fn free_leaves(tree: &Tree) -> (u32, u32)
    ensures { AreFreeLeaves (contour tree.now) result.0 result.1 }
{
    last_two_lows(tree.letters())
}
