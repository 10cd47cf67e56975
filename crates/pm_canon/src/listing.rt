//! The vertices of a map in the order in which they are met, as lists of darts.
ghost use Rattle.std.specs.Prelude.{IfOk};
ghost use Rattle.pm_map.specs.Rotation.{structure_of};
ghost use Rattle.pm_canon.specs.VertexList.{IsCanonicalList, IsVertexList};

use crate::meeting::{VertexList, vertices_met};
use crate::naming::names_of;
use pm_map::RootedMap;
use std::alloc::{AllocError, Global};

/// The vertices of the map, in the order in which they are met from the root. It takes time linear in the darts.
///
/// # Errors
///
/// Where memory runs out.
pub fn vertex_list(alloc: Global, map: &RootedMap) -> Result<VertexList, AllocError>
    ensures { IfOk result (λ list. IsVertexList (structure_of map.now) list.darts.items list.sizes.items) }
{
    vertices_met(alloc, map.sigma(), map.root())
}

/// The vertices of the canonical map that is the same as `map`, with the names of that map. The canonical map itself isn't
/// made. It takes time linear in the darts.
///
/// # Errors
///
/// Where memory runs out.
pub fn canonical_vertex_list(alloc: Global, map: &RootedMap) -> Result<VertexList, AllocError>
    ensures { IfOk result (λ list. IsCanonicalList map.now list.darts.items list.sizes.items) }
{
    let sigma = map.sigma();
    let mut list = vertices_met(alloc, sigma, map.root())?;
    names_of(alloc, &mut list.darts, sigma.len())?;
    Ok(list)
}
