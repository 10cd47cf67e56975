//! The bounds of growths, of arrangement codes, and of the choices and the residues of Eulerian maps.
ghost use Rattle.std.specs.Prelude.{◌≡◌, ◌∷◌, IfOk};
ghost use Rattle.pm_objects.specs.Codes.{code_bounds};
ghost use Rattle.pm_euler.specs.Bounds.{growth_bounds, eulerian_choices, eulerian_residues};

use crate::objects::nodes_of;
use pm_objects::push_code_bounds;
use pm_trees::{Profile, pattern_count};
use std::alloc::{AllocError, Global};

/// The bounds of so many choices of a growth.
pub(crate) fn limits_of_growth(alloc: Global, count: u32) -> Result<Vec<u64>, AllocError>
    ensures { IfOk result (λ limits. limits.items ≡ growth_bounds 0 count) }
{
    let mut limits = Vec::with_capacity(alloc, count as usize)?;
    for grown in 0..u64::from(count) {
        limits.push(2 * (2 * grown + 1))?;
    }
    Ok(limits)
}

/// One bound, and those of an arrangement code of this length.
pub(crate) fn limits_with_code(
    alloc: Global,
    first: u64,
    length: u32,
) -> Result<Vec<u64>, AllocError>
    ensures { IfOk result (λ limits. limits.items ≡ first ∷ code_bounds length) }
{
    let mut limits = Vec::with_capacity(alloc, length as usize + 1)?;
    limits.push(first)?;
    push_code_bounds(&mut limits, length)?;
    Ok(limits)
}

/// The bounds of the choices of an Eulerian map: an arrangement code of the objects, a bud pattern for each node object,
/// and one of the two free leaves.
pub(crate) fn eulerian_choice_limits(
    alloc: Global,
    profile: &Profile,
) -> Result<Vec<u64>, AllocError>
    ensures { IfOk result (λ limits. limits.items ≡ eulerian_choices profile.now) }
{
    let objects = profile.edges() + 1;
    let mut limits = Vec::with_capacity(alloc, objects as usize + nodes_of(profile) as usize + 1)?;
    push_code_bounds(&mut limits, objects)?;
    for pair in profile.pairs() {
        let patterns = vec![in alloc; pattern_count(pair.0 / 2); pair.1 as usize]?;
        limits.extend_from_slice(&patterns)?;
    }
    limits.push(2)?;
    Ok(limits)
}

/// The bounds of the residue of an Eulerian map: the start of the preorder, an arrangement code for each degree and for the
/// leaf objects, and which leaf the old plant is.
pub(crate) fn eulerian_residue_limits(
    alloc: Global,
    profile: &Profile,
) -> Result<Vec<u64>, AllocError>
    ensures { IfOk result (λ limits. limits.items ≡ eulerian_residues profile.now) }
{
    let objects = profile.edges() + 1;
    let leaves = objects - nodes_of(profile);
    let mut limits = Vec::with_capacity(alloc, objects as usize + 2)?;
    limits.push(u64::from(objects))?;
    for pair in profile.pairs() {
        push_code_bounds(&mut limits, pair.1)?;
    }
    push_code_bounds(&mut limits, leaves)?;
    limits.push(u64::from(leaves) + 1)?;
    Ok(limits)
}
