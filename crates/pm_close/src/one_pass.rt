//! The closure of a balanced word, in one pass along its letters.
ghost use Rattle.std.specs.Prelude.{IfOk};
ghost use Rattle.pm_trees.specs.Blossoming.{IsBlossoming};
ghost use Rattle.pm_trees.specs.Word.{contour};
ghost use Rattle.pm_match.specs.Pair.{IsBalanced};
ghost use Rattle.pm_close.specs.Closure.{IsClosed};

use pm_brackets::{CLOSE, OPEN};
use pm_trees::BUD;
use std::alloc::{AllocError, Global};

// The rotation of the closure of a balanced word. No pair passes the plant, so brackets are closed from one stack, and
// pairs from another, at whose foot the plant waits for the other free leaf. Both hold the first darts of their edges. An
// edge is numbered when it is first met. The dart behind is the one across the place that was read last: the dart of the
// place ahead is its next.
pub(crate) fn closed_rotation(alloc: Global, letters: &[u8]) -> Result<Vec<u32>, AllocError>
    requires tree { IsBlossoming letters.now }
    requires balanced { IsBalanced (contour letters.now) }
    ensures { IfOk result (λ sigma. IsClosed (contour letters.now) (record { sigma = sigma.items; root = 0 })) }
{
    let mut sigma = vec![in alloc; 0u32; letters.len() + 1]?;
    let mut children: Vec<u32> = Vec::new(alloc);
    let mut waiting: Vec<u32> = Vec::new(alloc);
    waiting.push(0)?;
    let mut next: u32 = 2;
    let mut behind: u32 = 0;
    'letters: for letter in letters {
        match *letter {
            OPEN => {
                children.push(next)?;
                sigma[behind as usize] = next;
                behind = next + 1;
                next += 2;
            }
            CLOSE => {
                let first = children.pop().unwrap();
                sigma[behind as usize] = first + 1;
                behind = first;
            }
            BUD => {
                waiting.push(next)?;
                sigma[behind as usize] = next;
                behind = next;
                next += 2;
            }
            _ => {
                let first = waiting.pop().unwrap();
                sigma[behind as usize] = first + 1;
                behind = first + 1;
            }
        }
    }
    sigma[behind as usize] = 0;
    Ok(sigma)
}
