//! The map of a text of version 2, whose darts are named by the lines of the twins.
ghost use Rattle.std.specs.Prelude.{◌≡◌, ℕ, ◌<◌, ◌^◌, length, slice_index, IfOk};
ghost use Rattle.pm_perm.specs.Permutation.{IsPermutationList};
ghost use Rattle.pm_mapfile.specs.TwinNames.{IsNamedAnew};

use pm_perm::inverse;
use std::alloc::{AllocError, Global};

/// A rotation and a root.
#[derive(Drop)]
pub(crate) struct Named {
    /// The dart after each dart.
    pub sigma: Vec<u32>,
    /// The root, or 0 where there is no dart.
    pub root: u32,
}

/// The rotation and the root with their darts named anew: dart `d` of the answer is the dart at place `d` of `names`. It takes
/// time linear in the darts.
///
/// # Errors
///
/// Where memory runs out.
pub(crate) fn name_anew(
    alloc: Global,
    sigma: &[u32],
    root: u32,
    names: &[u32],
) -> Result<Named, AllocError>
    requires size { length sigma.now ≡ length names.now }
    requires few { length names.now < 2 ^ 32 }
    requires names { IsPermutationList names.now }
    requires below { (d : ℕ) → d < length sigma.now → slice_index sigma.now d < length sigma.now }
    requires root { 0 < length sigma.now → root < length sigma.now }
    ensures { IfOk result (λ named. IsNamedAnew names.now (record { sigma = sigma.now; root = root }) (record { sigma = named.sigma.items; root = named.root })) }
{
    let places = inverse(alloc, names)?;
    let mut renamed = Vec::with_capacity(alloc, sigma.len())?;
    'darts: for name in names {
        renamed.push(places[sigma[*name as usize] as usize])?;
    }
    let root = if places.is_empty() {
        0
    } else {
        places[root as usize]
    };
    Ok(Named {
        sigma: renamed,
        root,
    })
}
