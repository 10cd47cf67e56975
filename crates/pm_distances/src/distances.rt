//! The search for the distances of the faces.
ghost use Rattle.std.specs.Prelude.{◌≡◌, ◌+◌, ◌<◌, ◌≤◌, length, IfOk, OnOk, [], vec_len};
ghost use Rattle.pm_map.specs.Rotation.{IsRootedMap, structure_of};
ghost use Rattle.pm_map.specs.steps.Marks.{NoneMarked};
ghost use Rattle.pm_map.specs.steps.Search.{work_left};
ghost use Rattle.pm_distances.specs.Distances.{AreFaceDistances};
ghost use Rattle.pm_distances.specs.steps.DistanceSearch.{FindsFace, IsFinding};

use pm_map::RootedMap;
use std::alloc::{AllocError, Global};

/// How far the face of each dart is from the root's face, over edges, dart by dart, for any rooted map. It takes time linear
/// in the darts.
///
/// # Errors
///
/// Only where there is no memory left.
pub fn face_distances(alloc: Global, map: &RootedMap) -> Result<Vec<u32>, AllocError>
    ensures { IfOk result (λ distances. AreFaceDistances map.now distances.items) }
{
    let count = map.sigma().len();
    let mut distances = vec![in alloc; 0; count]?;
    if count == 0 {
        return Ok(distances);
    }
    let mut found = vec![in alloc; false; count]?;
    let mut darts = Vec::with_capacity(alloc, count)?;
    find_all(map, &mut found, &mut distances, &mut darts)?;
    Ok(distances)
}

/// Finds all faces, the nearest first, and writes their distances. None is found before.
fn find_all(
    map: &RootedMap,
    found: &mut [bool],
    distances: &mut [u32],
    darts: &mut Vec<u32>,
) -> Result<(), AllocError>
    requires map { IsRootedMap map.now }
    requires some { 0 < length map.now.sigma }
    requires found_size { length found.old ≡ length map.now.sigma }
    requires distances_size { length distances.old ≡ length map.now.sigma }
    requires none { NoneMarked found.old }
    requires empty { darts.old.items ≡ [] }
    ensures { OnOk result (AreFaceDistances map.now distances.new) }
{
    find_face(map, map.root(), 0, found, distances, darts)?;
    let mut place = 0;
    'search: while place < darts.len() {
        find_across(map, place, found, distances, darts)?;
        place += 1;
    }
    Ok(())
}

/// Finds the face across the edge of the dart at this place, unless it is found: it is one further away.
fn find_across(
    map: &RootedMap,
    place: usize,
    found: &mut [bool],
    distances: &mut [u32],
    darts: &mut Vec<u32>,
) -> Result<(), AllocError>
    requires map { IsRootedMap map.now }
    requires within { place < vec_len darts.old }
    requires finding { IsFinding map.now found.old distances.old darts.old.items place }
    ensures finding { OnOk result (IsFinding map.now found.new distances.new darts.new.items (place + 1)) }
    ensures work { OnOk result (work_left found.new darts.new.items ≤ work_left found.old darts.old.items) }
{
    let dart = darts[place];
    let other = map.twin(dart);
    if found[other as usize] {
        return Ok(());
    }
    find_face(
        map,
        other,
        distances[dart as usize] + 1,
        found,
        distances,
        darts,
    )
}

/// Writes the distance of the face of `start`, and appends its darts to those that are found.
fn find_face(
    map: &RootedMap,
    start: u32,
    distance: u32,
    found: &mut [bool],
    distances: &mut [u32],
    darts: &mut Vec<u32>,
) -> Result<(), AllocError>
    requires map { IsRootedMap map.now }
    requires within { start < length map.now.sigma }
    requires found_size { length found.old ≡ length map.now.sigma }
    requires distances_size { length distances.old ≡ length map.now.sigma }
    ensures { OnOk result (FindsFace map.now.sigma start distance found.old distances.old darts.old.items found.new distances.new darts.new.items) }
{
    let mut dart = start;
    'walk: while !found[dart as usize] {
        found[dart as usize] = true;
        distances[dart as usize] = distance;
        darts.push(dart)?;
        dart = map.face_next(dart);
    }
    Ok(())
}
