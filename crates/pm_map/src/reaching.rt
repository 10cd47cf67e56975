//! The search for the darts that the root reaches.
ghost use Rattle.std.specs.Prelude.{◌≡◌, ◌<◌, ◌≤◌, ◌%◌, ◌*◌, ◌^◌, length, IfOk, OnOk, []};
ghost use Rattle.pm_perm.specs.Permutation.{IsPermutationList};
ghost use Rattle.pm_map.specs.steps.Marks.{NoneMarked};
ghost use Rattle.pm_map.specs.steps.ReachAnswers.{IsReachAnswer};
ghost use Rattle.pm_map.specs.Rotation.{structure_of};
ghost use Rattle.pm_map.specs.steps.Search.{IsSearch, MarksFace};
ghost use Rattle.pm_map.specs.Structure.{IsStructure};

use crate::darts::twin_of;
use crate::marks::{clear, least_unmarked};
use std::alloc::{AllocError, Global};

/// How far the root reaches under rotation and twin.
#[derive(Clone, Copy, Debug, PartialEq, Eq)]
pub(crate) enum Reach {
    /// It reaches each dart, and there are so many faces.
    Everywhere { faces: u32 },
    /// The least dart that it doesn't reach.
    ShortOf { dart: u32 },
}

/// How far the root reaches under rotation and twin. It takes time linear in the darts. What it leaves in `marks` is free.
pub(crate) fn reach_of_root(
    alloc: Global,
    sigma: &[u32],
    root: u32,
    marks: &mut [bool],
) -> Result<Reach, AllocError>
    requires even { length sigma.now % 2 ≡ 0 }
    requires structure { IsStructure (structure_of (record { sigma = sigma.now; root = root })) }
    requires size { length marks.old ≡ length sigma.now }
    requires few { length sigma.now ≤ 2 ^ 31 }
    ensures { IfOk result (IsReachAnswer (structure_of (record { sigma = sigma.now; root = root }))) }
{
    if sigma.is_empty() {
        return Ok(Reach::Everywhere { faces: 1 });
    }
    clear(marks);
    let faces = mark_reached(alloc, sigma, root, marks)?;
    match least_unmarked(marks) {
        None => Ok(Reach::Everywhere { faces }),
        Some(dart) => Ok(Reach::ShortOf { dart }),
    }
}

/// Marks the darts that the root reaches, face by face, and answers the number of those faces. No dart is marked before.
fn mark_reached(
    alloc: Global,
    sigma: &[u32],
    root: u32,
    marks: &mut [bool],
) -> Result<u32, AllocError>
    requires even { length sigma.now % 2 ≡ 0 }
    requires structure { IsStructure (structure_of (record { sigma = sigma.now; root = root })) }
    requires some { 0 < length sigma.now }
    requires size { length marks.old ≡ length sigma.now }
    requires few { length sigma.now ≤ 2 ^ 31 }
    requires unmarked { NoneMarked marks.old }
    ensures { IfOk result (IsSearch (structure_of (record { sigma = sigma.now; root = root })) marks.new []) }
{
    let mut stack = Vec::new(alloc);
    mark_face(sigma, root, marks, &mut stack)?;
    let mut faces = 1;
    'search: while let Some(dart) = stack.pop() {
        let other = twin_of(dart);
        if !marks[other as usize] {
            mark_face(sigma, other, marks, &mut stack)?;
            faces += 1;
        }
    }
    Ok(faces)
}

/// Marks the darts around the face of `start`, up to the first that is marked, and lets them wait on the stack.
fn mark_face(
    sigma: &[u32],
    start: u32,
    marks: &mut [bool],
    stack: &mut Vec<u32>,
) -> Result<(), AllocError>
    requires even { length sigma.now % 2 ≡ 0 }
    requires permutation { IsPermutationList sigma.now }
    requires within { start < length sigma.now }
    requires size { length marks.old ≡ length sigma.now }
    ensures { OnOk result (MarksFace sigma.now start marks.old stack.old.items marks.new stack.new.items) }
{
    let mut dart = start;
    'walk: while !marks[dart as usize] {
        marks[dart as usize] = true;
        stack.push(dart)?;
        dart = sigma[twin_of(dart) as usize];
    }
    Ok(())
}
