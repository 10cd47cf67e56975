//! The distances of the faces of a map from the root's face, and for each face a dart that leads nearer.
ghost use Rattle.std.specs.Prelude.{◌≡◌, ◌<◌, ◌↔◌, false, true, length, replicate, IfOk};
ghost use Rattle.pm_map.specs.Rotation.{IsRootedMap, structure_of};
ghost use Rattle.pm_distances.specs.Distances.{AreFaceDistances};
ghost use Rattle.pm_reach.specs.Layers.{AreLayers, AreParents, LeadsNearer};
ghost use Rattle.pm_reach.specs.steps.Telling.{TellsFace};

use pm_distances::face_distances;
use pm_map::RootedMap;
use std::alloc::{AllocError, Global};
use std::marker::Model;

/// The layers of a map: for each dart how far its face is from the root's face, over edges, and the parent of its face.
/// The parent is the least dart of the face whose twin is in a face that is one nearer; that of the root's face is the
/// root. Both lists have an entry for each dart, in the order of the darts. From a face, each parent leads to a face one
/// nearer, so the lists show ways of these lengths. Contracts see it as the two lists.
#[derive(Drop)]
pub struct FaceLayers {
    distances: Vec<u32>,
    parents: Vec<u32>,
}

impl Model for FaceLayers {
    ghost use Rattle.pm_reach.specs.Layers.{Layers};

    ghost Value = { Layers };

    ghost view = { λ l. record { distances = l.distances.items; parents = l.parents.items } };
}

impl FaceLayers {
    /// Entry `d` is the distance of the face of dart `d` from the root's face.
    pub fn distances(&self) -> &[u32]
        ensures { result.now ≡ self.now.distances }
    {
        &self.distances
    }

    /// Entry `d` is the parent of the face of dart `d`.
    pub fn parents(&self) -> &[u32]
        ensures { result.now ≡ self.now.parents }
    {
        &self.parents
    }
}

/// The layers of the faces of a map. It takes time linear in the darts.
///
/// # Errors
///
/// Only where there is no memory left.
pub fn layers(alloc: Global, map: &RootedMap) -> Result<FaceLayers, AllocError>
    ensures { IfOk result (λ layers. AreLayers map.now layers) }
{
    let distances = face_distances(alloc, map)?;
    let parents = parents_of(alloc, map, &distances)?;
    Ok(FaceLayers { distances, parents })
}

/// The parent of the face of each dart. These are the distances.
fn parents_of(alloc: Global, map: &RootedMap, distances: &[u32]) -> Result<Vec<u32>, AllocError>
    requires distances { AreFaceDistances map.now distances.now }
    ensures { IfOk result (λ parents. AreParents (structure_of map.now) parents.items) }
{
    let count = map.sigma().len();
    let mut parents = vec![in alloc; map.root(); count]?;
    let mut told = vec![in alloc; false; count]?;
    tell_faces(map, distances, &mut told, &mut parents);
    Ok(parents)
}

/// Writes the parent of each face but the root's. No face is told before, and each dart has the root as its parent.
fn tell_faces(map: &RootedMap, distances: &[u32], told: &mut [bool], parents: &mut [u32])
    requires map { IsRootedMap map.now }
    requires distances { AreFaceDistances map.now distances.now }
    requires told { told.old ≡ replicate (length map.now.sigma) false }
    requires parents { parents.old ≡ replicate (length map.now.sigma) map.now.root }
    ensures { AreParents (structure_of map.now) parents.new }
{
    'darts: for dart in 0..told.len() as u32 {
        if !told[dart as usize] && leads_nearer(map, distances, dart) {
            tell_face(map, dart, told, parents);
        }
    }
}

/// Whether the twin of the dart is in a face that is nearer to the root's face.
fn leads_nearer(map: &RootedMap, distances: &[u32], dart: u32) -> bool
    requires map { IsRootedMap map.now }
    requires within { dart < length map.now.sigma }
    requires distances { AreFaceDistances map.now distances.now }
    ensures { (result ≡ true) ↔ LeadsNearer (structure_of map.now) dart dart }
{
    distances[map.twin(dart) as usize] < distances[dart as usize]
}

/// Writes that this dart is the parent of its face.
fn tell_face(map: &RootedMap, dart: u32, told: &mut [bool], parents: &mut [u32])
    requires map { IsRootedMap map.now }
    requires within { dart < length map.now.sigma }
    requires told_size { length told.old ≡ length map.now.sigma }
    requires parents_size { length parents.old ≡ length map.now.sigma }
    ensures { TellsFace (structure_of map.now) dart told.old parents.old told.new parents.new }
{
    'around: for other in map.face_walk(dart) {
        told[other as usize] = true;
        parents[other as usize] = dart;
    }
}
