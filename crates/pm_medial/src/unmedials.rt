//! The unmedial of a rooted map whose vertices have degree 4.
ghost use Rattle.std.specs.Prelude.{◌≡◌, ◌*◌, ◌<◌, ◌^◌, suc, false, length, slice_index, slice_index_or, IfOk};
ghost use Rattle.pm_perm.specs.Permutation.{IsPermutationList};
ghost use Rattle.pm_map.specs.ClassRules.{AllAdmitted};
ghost use Rattle.pm_map.specs.Rotation.{IsRootedMap, structure_of};
ghost use Rattle.pm_map.specs.declared.admitted.Degrees.TheVariants.{Exactly};
ghost use Rattle.pm_map.specs.EdgeNumbers.{dart_of};
ghost use Rattle.pm_medial.specs.Colouring.{AreColours};
ghost use Rattle.pm_medial.specs.Medial.{IsUnmedialAnswer, IsUnmedialOf};
ghost use Rattle.pm_medial.specs.steps.Halved.{plus_of, edge_two_on, edge_before, AreEdgesTwoOn, IsHalfRotation};

use crate::colours::colours_of;
use pm_map::{Degrees, RootedMap, darts_of};
use std::alloc::{AllocError, Global};

/// Why a map has no unmedial.
#[derive(Clone, Copy, Debug, PartialEq, Eq)]
pub enum UnmedialRefusal {
    /// There is no memory left. It may come at any map.
    Memory,
    /// The vertex of a dart hasn't degree 4, and this is the least such dart.
    NotQuartic { dart: u32 },
}

impl From<AllocError> for UnmedialRefusal {
    ghost use Rattle.pm_medial.specs.declared.unmedials.UnmedialRefusal.TheVariants.{Memory};

    ghost from_gives = { λ _ refusal. refusal ≡ Memory };

    fn from(_error: AllocError) -> UnmedialRefusal {
        UnmedialRefusal::Memory
    }
}

/// The unmedial of a map with a dart whose vertices have degree 4: the map whose medial map is the same, up to the names of
/// darts. It has an edge for each vertex, and no other map but up to names is one. Its darts are those whose face has the
/// colour of the root's face, one for each edge. Linear in the darts.
///
/// # Errors
///
/// `NotQuartic` exactly where some vertex hasn't degree 4, with the least dart of such a vertex.
pub fn unmedial(alloc: Global, map: &RootedMap) -> Result<RootedMap, UnmedialRefusal>
    requires { 0 < length map.now.sigma }
    ensures { IsUnmedialAnswer map.now result }
{
    let four = Degrees::Exactly { degree: 4 };
    if let Some(dart) = map.vertex_of_other_degree(alloc, four)? {
        return Err(UnmedialRefusal::NotQuartic { dart });
    }
    Ok(unmedial_of_quartic(alloc, map)?)
}

/// An unmedial of a map with a dart whose vertices are known to have degree 4: the degrees aren't tested.
///
/// # Errors
///
/// Only where there is no memory left.
pub fn unmedial_of_quartic(alloc: Global, map: &RootedMap) -> Result<RootedMap, AllocError>
    requires some { 0 < length map.now.sigma }
    requires degrees { AllAdmitted (structure_of map.now) (Exactly 4) }
    ensures { IfOk result (λ unmedial. IsUnmedialOf (structure_of map.now) unmedial) }
{
    let edges = map.edges();
    let colours = colours_of(alloc, map)?;
    let twins = twins_of(alloc, map, edges, &colours)?;
    let darts = darts_of(alloc, &twins)?;
    let rotation = rotation_of(alloc, map, &colours, &darts)?;
    let root = darts[map.root() as usize / 2];
    Ok(RootedMap::from_rooted_rotation(rotation, root))
}

// The dart of the edge whose face has the colour true.
fn plus_of_edge(colours: &[bool], edge: u32) -> u32
    requires few { length colours.now < 2 ^ 32 }
    requires within { suc (2 * edge) < length colours.now }
    ensures { result ≡ plus_of (λ d. slice_index_or colours.now d false) edge }
{
    if colours[2 * edge as usize] {
        2 * edge
    } else {
        2 * edge + 1
    }
}

// For each edge that whose plus is two steps on around the vertex of its own.
fn twins_of(
    alloc: Global,
    map: &RootedMap,
    edges: u32,
    colours: &[bool],
) -> Result<Vec<u32>, AllocError>
    requires map { IsRootedMap map.now }
    requires edges { 2 * edges ≡ length map.now.sigma }
    requires colours { AreColours map.now colours.now }
    ensures { IfOk result (λ twins. AreEdgesTwoOn map.now colours.now twins.items) }
{
    let mut twins = Vec::with_capacity(alloc, edges as usize)?;
    'edges: for edge in 0..edges {
        let plus = plus_of_edge(colours, edge);
        let minus = map.next(plus);
        let across = map.next(minus);
        twins.push(across / 2)?;
    }
    Ok(twins)
}

// The dart after each dart.
fn rotation_of(
    alloc: Global,
    map: &RootedMap,
    colours: &[bool],
    darts: &[u32],
) -> Result<Vec<u32>, AllocError>
    requires colours { AreColours map.now colours.now }
    requires half { 2 * length darts.now ≡ length map.now.sigma }
    requires permutation { IsPermutationList darts.now }
    ensures { IfOk result (λ rotation. IsHalfRotation map.now colours.now darts.now rotation.items (length darts.now)) }
{
    let mut rotation = vec![in alloc; 0u32; darts.len()]?;
    write_rotation(map, colours, darts, &mut rotation);
    Ok(rotation)
}

// Writes for each edge the dart after its own: that of the edge whose plus is three steps on from the minus of the edge.
fn write_rotation(map: &RootedMap, colours: &[bool], darts: &[u32], rotation: &mut [u32])
    requires colours { AreColours map.now colours.now }
    requires half { 2 * length darts.now ≡ length map.now.sigma }
    requires permutation { IsPermutationList darts.now }
    requires size { length rotation.old ≡ length darts.now }
    ensures { IsHalfRotation map.now colours.now darts.now rotation.new (length darts.now) }
{
    'edges: for edge in 0..map.edges() {
        let minus = map.twin(plus_of_edge(colours, edge));
        let after = map.next(minus);
        let across = map.next(after);
        let before = map.next(across);
        rotation[darts[edge as usize] as usize] = darts[before as usize / 2];
    }
}
