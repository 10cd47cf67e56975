ghost use Rattle.std.specs.Prelude.{◌≡◌, ◌<◌, length, IfOk};
ghost use Rattle.pm_limits.specs.declared.TheConstants.{MAX_DEGREE};
ghost use Rattle.pm_map.specs.ClassRules.{AllAdmitted};
ghost use Rattle.pm_map.specs.Rotation.{structure_of};
ghost use Rattle.pm_map.specs.declared.admitted.Degrees.TheVariants.{EvenUpTo};
ghost use Rattle.pm_open.specs.Opening.{IsOpenAnswer, IsOpening};
ghost use Rattle.pm_open.specs.declared.opening.OpenRefusal.TheVariants.{Memory};

use crate::walking::word_along;
use pm_distances::face_distances;
use pm_limits::MAX_DEGREE;
use pm_map::{Degrees, RootedMap};
use pm_trees::Tree;
use std::alloc::{AllocError, Global};

/// Why a map isn't opened.
#[derive(Clone, Copy, Debug, PartialEq, Eq)]
pub enum OpenRefusal {
    /// There is no memory left. It may come at any map.
    Memory,
    /// The vertex of this dart has an odd degree or one above `MAX_DEGREE`; it is the least such dart.
    Degree { dart: u32 },
}

impl From<AllocError> for OpenRefusal {
    ghost from_gives = { λ _ refusal. refusal ≡ Memory };

    fn from(_: AllocError) -> OpenRefusal {
        OpenRefusal::Memory
    }
}

/// Opens a map that has a dart and even degrees: the balanced tree whose closure is the map, up to the names of darts
/// (Schaeffer 1997). It takes time linear in the darts.
///
/// # Errors
///
/// `Degree` exactly where a vertex has an odd degree or one above `MAX_DEGREE`, with the least dart of such a vertex.
pub fn open_map(alloc: Global, map: &RootedMap) -> Result<Tree, OpenRefusal>
    requires { 0 < length map.now.sigma }
    ensures { IsOpenAnswer map.now result }
{
    let even = Degrees::EvenUpTo {
        greatest: MAX_DEGREE,
    };
    if let Some(dart) = map.vertex_of_other_degree(alloc, even)? {
        return Err(OpenRefusal::Degree { dart });
    }
    Ok(open_even(alloc, map)?)
}

/// The opening of a map with a dart whose vertices are known to have even degrees within `MAX_DEGREE`: the degrees aren't
/// tested.
///
/// # Errors
///
/// Only where there is no memory left.
pub fn open_even(alloc: Global, map: &RootedMap) -> Result<Tree, AllocError>
    requires some { 0 < length map.now.sigma }
    requires degrees { AllAdmitted (structure_of map.now) (EvenUpTo MAX_DEGREE) }
    ensures { IfOk result (IsOpening map.now) }
{
    let distances = face_distances(alloc, map)?;
    let word = word_along(alloc, map, &distances)?;
    Ok(Tree::of_word(word))
}
