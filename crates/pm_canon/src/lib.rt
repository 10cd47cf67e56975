//! Canonical numbering of rooted maps: maps that differ only in the numbers of their darts have one canonical map.
#![tactic(auto)]

ghost use Rattle.std.specs.Prelude.{IfOk, IsTrue, ◌↔◌};
ghost use Rattle.pm_map.specs.Canonical.{IsCanonicalOf};
ghost use Rattle.pm_map.specs.Rotation.{structure_of};
ghost use Rattle.pm_map.specs.Structure.{Same};

mod laws;
mod listing;
mod meeting;
mod naming;

pub use laws::canonical_exists;
pub use listing::{canonical_vertex_list, vertex_list};
pub use meeting::{VertexList, meeting_list};
use pm_map::RootedMap;
use std::alloc::{AllocError, Global};

/// The canonical map that is the same as `map`: its root is `0`, and its edges are numbered in the order in which they
/// are met from the root, vertex by vertex. It takes time linear in the darts.
///
/// # Errors
///
/// Where memory runs out.
pub fn canon(alloc: Global, map: &RootedMap) -> Result<RootedMap, AllocError>
    ensures { IfOk result (λ canonical. IsCanonicalOf map.now canonical) }
{
    let sigma = map.sigma();
    let mut darts = meeting::meeting_list(alloc, sigma, map.root())?;
    let names = naming::names_of(alloc, &mut darts, sigma.len())?;
    let renamed = naming::renamed(alloc, sigma, &names)?;
    Ok(RootedMap::from_rooted_rotation(renamed, 0))
}

/// Whether the two maps are the same, up to the numbers of their darts. It takes time linear in the darts.
///
/// # Errors
///
/// Where memory runs out.
pub fn same(alloc: Global, first: &RootedMap, second: &RootedMap) -> Result<bool, AllocError>
    ensures { IfOk result (λ is_same. IsTrue is_same ↔ Same (structure_of first.now) (structure_of second.now)) }
{
    if first.edges() != second.edges() {
        return Ok(false);
    }
    let first = canon(alloc, first)?;
    let second = canon(alloc, second)?;
    Ok(first.sigma() == second.sigma())
}

#[cfg(test)]
mod tests;
