//! Simple triangulations, and their size.
ghost use Rattle.pm_map.specs.ClassRules.{IsTriangulationAnswer};

use pm_map::{ClassRefusal, Degrees, NotSimple, RootedMap};
use std::alloc::Global;

/// The size of a simple triangulation: a third of its edges. Of size `n` it has `n + 2` vertices, `3n` edges and `2n` faces,
/// each of degree 3; no edge is a loop, and no two have the same ends. It takes the time of sorting the darts.
///
/// # Errors
///
/// The first rule that the map breaks, in the order `Empty`, `Face`, `Loop`, `Double`, each but the first with the least dart
/// that breaks it; or `Memory`, which may come at any map.
pub fn tri_size(alloc: Global, map: &RootedMap) -> Result<u32, ClassRefusal>
    ensures { IsTriangulationAnswer map.now result }
{
    if map.edges() == 0 {
        return Err(ClassRefusal::Empty);
    }
    let three = Degrees::Exactly { degree: 3 };
    if let Some(dart) = map.face_of_other_degree(alloc, three)? {
        return Err(ClassRefusal::Face { dart });
    }
    match map.why_not_simple(alloc)? {
        Some(NotSimple::Loop { dart }) => Err(ClassRefusal::Loop { dart }),
        Some(NotSimple::Double { dart }) => Err(ClassRefusal::Double { dart }),
        None => Ok(map.edges() / 3),
    }
}
