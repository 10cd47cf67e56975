//! The bounds of the choices and of the residues of simple triangulations.
ghost use Rattle.std.specs.Prelude.{◌≡◌, IfOk};
ghost use Rattle.pm_tri.specs.Bounds.{tri_choices, tri_residues};
ghost use Rattle.pm_tri.specs.Triangulations.{IsTriSize};

use pm_lists::Bounds;
use pm_objects::push_code_bounds;
use std::alloc::{AllocError, Global};

/// The bounds of the choices of a simple triangulation of size `n`, which is from 1 and has `3n` at most `MAX_EDGES`: an
/// arrangement code of its `4n - 2` bits, which of two good starts the bits are read from, and which of the two runs of stems
/// the plant begins.
///
/// # Errors
///
/// `AllocError` where memory runs out.
pub fn tri_choice_bounds(alloc: Global, n: u32) -> Result<Bounds, AllocError>
    requires { IsTriSize n }
    ensures { IfOk result (λ bounds. bounds ≡ tri_choices n) }
{
    let mut limits = Vec::with_capacity(alloc, 4 * n as usize)?;
    push_code_bounds(&mut limits, 4 * n - 2)?;
    limits.push(2)?;
    limits.push(2)?;
    Ok(Bounds::of(limits))
}

/// The bounds of the residue of a simple triangulation of size `n`, as [`tri_choice_bounds`] takes it: the start, the
/// arrangement code of the ones and that of the zeros, and which stem the old plant is.
///
/// # Errors
///
/// `AllocError` where memory runs out.
pub fn tri_residue_bounds(alloc: Global, n: u32) -> Result<Bounds, AllocError>
    requires { IsTriSize n }
    ensures { IfOk result (λ bounds. bounds ≡ tri_residues n) }
{
    let mut limits = Vec::with_capacity(alloc, 4 * n as usize)?;
    limits.push(u64::from(4 * n - 2))?;
    push_code_bounds(&mut limits, n - 1)?;
    push_code_bounds(&mut limits, 3 * n - 1)?;
    limits.push(u64::from(2 * n))?;
    Ok(Bounds::of(limits))
}
