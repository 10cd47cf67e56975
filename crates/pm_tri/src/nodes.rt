//! The stems of the nodes of a word whose text is in order.
ghost use Rattle.std.specs.Prelude.{◌≡◌, ◌<◌, ◌^◌, ℕ, IfOk, MatchOption, length};
ghost use Rattle.pm_brackets.specs.First.{IsFirst};
ghost use Rattle.pm_brackets.specs.Noted.{IsNoted};
ghost use Rattle.pm_tri.specs.StemTree.{BreaksStems, HasStems, IsInOrder, contour};

use pm_brackets::{CLOSE, OPEN, noted};
use std::alloc::{AllocError, Global};

/// A node whose letters are being read, with the stems that were read so far.
#[derive(Clone, Copy)]
pub(crate) struct OpenNode {
    place: u32,
    stems: u32,
}

/// What was found so far and at this node, all of whose letters were read.
fn with_node(found: Option<u32>, node: OpenNode) -> Option<u32>
    ensures { IsNoted (node.stems ≡ 2) found result node.place }
{
    noted(found, node.place, node.stems == 2)
}

/// The least node that hasn't two stems; none where all have.
pub(crate) fn first_wrong_node(alloc: Global, word: &[u8]) -> Result<Option<u32>, AllocError>
    requires in_order { IsInOrder word.now }
    requires small { length word.now < 2 ^ 31 }
    ensures { IfOk result (λ found. MatchOption found (HasStems word.now) (IsFirst (BreaksStems (contour word.now)))) }
{
    let mut found = None;
    let mut parents: Vec<OpenNode> = Vec::new(alloc);
    // The plant is a stem of the root node.
    let mut node = OpenNode { place: 0, stems: 1 };
    'letters: for (i, letter) in word.iter().enumerate() {
        if *letter == CLOSE {
            found = with_node(found, node);
            node = parents.pop().unwrap();
        } else if *letter == OPEN {
            parents.push(node)?;
            node = OpenNode {
                place: i as u32 + 1,
                stems: 0,
            };
        } else {
            node.stems += 1;
        }
    }
    Ok(with_node(found, node))
}
