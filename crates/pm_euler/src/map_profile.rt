//! The profile of a map: how many of its vertices have which degree.
ghost use Rattle.std.specs.Prelude.{◌<◌, length, IfOk};
ghost use Rattle.pm_limits.specs.declared.TheConstants.{MAX_DEGREE};
ghost use Rattle.pm_map.specs.ClassRules.{AllAdmitted};
ghost use Rattle.pm_map.specs.Classes.{IsEulerian};
ghost use Rattle.pm_map.specs.Rotation.{structure_of};
ghost use Rattle.pm_map.specs.declared.admitted.Degrees.TheVariants.{EvenUpTo};
ghost use Rattle.pm_trees.specs.Pairs.{IsProfile};
ghost use Rattle.pm_euler.specs.Eulerian.{IsEulerianAnswer};

use pm_limits::MAX_DEGREE;
use pm_map::{ClassRefusal, Degrees, RootedMap};
use pm_trees::{Profile, ProfileRefusal};
use std::alloc::{AllocError, Global};

/// The profile of a map with vertices of even degrees within the limit.
///
/// # Errors
///
/// The first rule that the map breaks: it has a dart, and each vertex has such a degree. `Memory` may come at any map.
pub(crate) fn profile_of_map(alloc: Global, map: &RootedMap) -> Result<Profile, ClassRefusal>
    ensures { IsEulerianAnswer map.now result }
{
    if map.edges() == 0 {
        return Err(ClassRefusal::Empty);
    }
    let even = Degrees::EvenUpTo {
        greatest: MAX_DEGREE,
    };
    if let Some(dart) = map.vertex_of_other_degree(alloc, even)? {
        return Err(ClassRefusal::Vertex { dart });
    }
    Ok(profile_of_even(alloc, map)?)
}

/// The profile of a map that has darts, and whose vertices all have even degrees up to [`MAX_DEGREE`]. It takes time linear
/// in the darts.
///
/// # Errors
///
/// `AllocError` where memory runs out.
pub fn profile_of_even(alloc: Global, map: &RootedMap) -> Result<Profile, AllocError>
    requires some { 0 < length map.now.sigma }
    requires degrees { AllAdmitted (structure_of map.now) (EvenUpTo MAX_DEGREE) }
    ensures { IfOk result (λ profile. IsProfile profile × IsEulerian (structure_of map.now) profile) }
{
    // Its contract says that the map is a rooted one, so its degrees have counts that are a profile.
    let _edges = map.edges();
    let table = map.vertices_by_degree(alloc, MAX_DEGREE)?;
    match Profile::of_counts(alloc, &table) {
        Ok(profile) => Ok(profile),
        Err(ProfileRefusal::Memory) => Err(AllocError),
        Err(ProfileRefusal::Pair { .. }) => unreachable!(),
        Err(ProfileRefusal::TooMany { .. }) => unreachable!(),
    }
}
