//! The degrees and the buds of the nodes of a word whose text is in order.
ghost use Rattle.std.specs.Prelude.{◌≡◌, ◌+◌, ◌*◌, ◌<◌, ◌^◌, ◌↔◌, ◌==◌, if◌then◌else◌, suc, ℕ, IfOk, IsTrue, MatchOption, length, slice_index};
ghost use Rattle.pm_trees.specs.Blossoming.{HasBuds, HasDegrees};
ghost use Rattle.pm_brackets.specs.First.{IsFirst};
ghost use Rattle.pm_brackets.specs.Noted.{IsNoted};
ghost use Rattle.pm_trees.specs.Node.{BreaksBuds, BreaksDegree, IsDegree};
ghost use Rattle.pm_trees.specs.Word.{IsInOrder, contour};

use crate::letters::BUD;
use pm_brackets::{CLOSE, OPEN, noted};
use pm_limits::MAX_DEGREE;
use std::alloc::{AllocError, Global};

/// A node whose letters are being read, with the entries and the buds that were read so far.
#[derive(Clone, Copy)]
pub(crate) struct OpenNode {
    place: u32,
    entries: u32,
    buds: u32,
}

/// The least node of a bad degree, and the least one with a wrong number of buds.
#[derive(Clone, Copy)]
pub(crate) struct NodeFaults {
    pub degree: Option<u32>,
    pub buds: Option<u32>,
}

/// The node with one entry more.
fn with_entry(node: OpenNode, letter: u8) -> OpenNode
    requires entries { node.entries + 1 < 2 ^ 32 }
    requires buds { letter ≡ BUD → node.buds + 1 < 2 ^ 32 }
    ensures { result ≡ record { place = node.place; entries = node.entries + 1; buds = (if letter == BUD then node.buds + 1 else node.buds) } }
{
    let buds = if letter == BUD {
        node.buds + 1
    } else {
        node.buds
    };
    OpenNode {
        place: node.place,
        entries: node.entries + 1,
        buds,
    }
}

/// Whether a node with so many entries has a degree that is even and within the limit.
fn has_degree(entries: u32) -> bool
    ensures { IsTrue result ↔ IsDegree (suc entries) }
{
    let degree = u64::from(entries) + 1;
    degree % 2 == 0 && degree <= u64::from(MAX_DEGREE)
}

/// Whether a node with so many entries has as many buds as it should.
fn has_buds(entries: u32, buds: u32) -> bool
    ensures { IsTrue result ↔ (2 * suc buds ≡ suc entries) }
{
    2 * (u64::from(buds) + 1) == u64::from(entries) + 1
}

/// What was found so far and at this node, all of whose letters were read.
fn with_node(faults: NodeFaults, node: OpenNode) -> NodeFaults
    ensures degree { IsNoted (IsDegree (suc node.entries)) faults.degree result.degree node.place }
    ensures buds { IsNoted (2 * suc node.buds ≡ suc node.entries) faults.buds result.buds node.place }
{
    NodeFaults {
        degree: noted(faults.degree, node.place, has_degree(node.entries)),
        buds: noted(faults.buds, node.place, has_buds(node.entries, node.buds)),
    }
}

/// The least nodes whose degree or whose buds are wrong; none where all are right.
pub(crate) fn node_faults(alloc: Global, word: &[u8]) -> Result<NodeFaults, AllocError>
    requires in_order { IsInOrder word.now }
    requires small { length word.now < 2 ^ 32 }
    ensures degree { IfOk result (λ f. MatchOption f.degree (HasDegrees word.now) (IsFirst (BreaksDegree (contour word.now)))) }
    ensures buds { IfOk result (λ f. MatchOption f.buds (HasBuds word.now) (IsFirst (BreaksBuds (contour word.now)))) }
{
    let mut faults = NodeFaults {
        degree: None,
        buds: None,
    };
    let mut parents: Vec<OpenNode> = Vec::new(alloc);
    let mut node = OpenNode {
        place: 0,
        entries: 0,
        buds: 0,
    };
    'letters: for (i, letter) in word.iter().enumerate() {
        if *letter == CLOSE {
            faults = with_node(faults, node);
            node = parents.pop().unwrap();
        } else {
            node = with_entry(node, *letter);
            if *letter == OPEN {
                parents.push(node)?;
                node = OpenNode {
                    place: i as u32 + 1,
                    entries: 0,
                    buds: 0,
                };
            }
        }
    }
    Ok(with_node(faults, node))
}
