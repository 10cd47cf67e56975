//! The dual of a rooted map.
ghost use Rattle.std.specs.Prelude.{IfOk};
ghost use Rattle.pm_map.specs.DualLaws.{IsDualOf};

use pm_map::RootedMap;
use std::alloc::{AllocError, Global};

/// The dual of a map: the same darts and the same root, where the next dart around a vertex is the next one around the
/// map's face. So vertices and faces change places. One pass over the darts; the map without darts is its own dual.
///
/// # Errors
///
/// Only where there is no memory left.
pub fn dual(alloc: Global, map: &RootedMap) -> Result<RootedMap, AllocError>
    ensures { IfOk result (λ other. IsDualOf map.now other) }
{
    let mut rotation = Vec::with_capacity(alloc, map.sigma().len())?;
    'darts: for dart in 0..2 * map.edges() {
        rotation.push(map.face_next(dart))?;
    }
    Ok(RootedMap::from_rooted_rotation(rotation, map.root()))
}
