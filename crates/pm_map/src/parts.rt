ghost use Rattle.std.specs.Prelude.{◌≡◌, ◌<◌, ◌≤◌, ◌%◌, ◌*◌, length};
ghost use Rattle.pm_limits.specs.declared.TheConstants.{MAX_EDGES};
ghost use Rattle.pm_perm.specs.Permutation.{IsPermutationList};
ghost use Rattle.pm_map.specs.Parts.{IsMapAnswer};
ghost use Rattle.pm_map.specs.Plane.{vertices};
ghost use Rattle.pm_map.specs.Rotation.{structure_of};

use crate::counting::count_vertices;
use crate::euler::euler_characteristic;
use crate::marks::least_missing;
use crate::reaching::{Reach, reach_of_root};
use crate::refusal::MapRefusal;
use crate::rooted_map::RootedMap;
use pm_limits::MAX_EDGES;
use std::alloc::Global;

impl RootedMap {
    /// The map with this rotation and this root, in time linear in the darts. The root of the map without darts is `0`.
    ///
    /// # Errors
    ///
    /// The first rule that the rotation breaks, in the order of [`MapRefusal`], or `Memory`, which may come at any rotation.
    pub fn from_parts(alloc: Global, sigma: Vec<u32>, root: u32) -> Result<RootedMap, MapRefusal>
        requires even { length sigma.items % 2 ≡ 0 }
        requires root { 0 < length sigma.items → root < length sigma.items }
        requires no_root { length sigma.items ≡ 0 → root ≡ 0 }
        ensures { IsMapAnswer sigma.items root result }
    {
        let edges = (sigma.len() / 2) as u64;
        if edges > MAX_EDGES as u64 {
            return Err(MapRefusal::TooMany { edges });
        }
        let mut marks = vec![in alloc; false; sigma.len()]?;
        if let Some(dart) = least_missing(&sigma, &mut marks) {
            return Err(MapRefusal::NotPermutation { dart });
        }
        let vertex_count = count_vertices(&sigma, &mut marks);
        RootedMap::from_rotation(alloc, sigma, root, vertex_count)
    }

    /// The same as [`RootedMap::from_parts`], where the rotation is known to be a permutation, and to have so many
    /// vertices: the caller saves the time to find out.
    ///
    /// # Errors
    ///
    /// `NotConnected`, `Genus` or `Memory`, as there.
    pub fn from_rotation(
        alloc: Global,
        sigma: Vec<u32>,
        root: u32,
        vertex_count: u32,
    ) -> Result<RootedMap, MapRefusal>
        requires even { length sigma.items % 2 ≡ 0 }
        requires few { length sigma.items ≤ 2 * MAX_EDGES }
        requires permutation { IsPermutationList sigma.items }
        requires root { 0 < length sigma.items → root < length sigma.items }
        requires no_root { length sigma.items ≡ 0 → root ≡ 0 }
        requires counted { vertex_count ≡ vertices (structure_of (record { sigma = sigma.items; root = root })) }
        ensures { IsMapAnswer sigma.items root result }
    {
        let mut marks = vec![in alloc; false; sigma.len()]?;
        let face_count = match reach_of_root(alloc, &sigma, root, &mut marks)? {
            Reach::Everywhere { faces } => faces,
            Reach::ShortOf { dart } => return Err(MapRefusal::NotConnected { dart }),
        };
        let euler = euler_characteristic(&sigma, vertex_count, face_count);
        if euler != 2 {
            return Err(MapRefusal::Genus { euler });
        }
        Ok(RootedMap::from_rooted_rotation(sigma, root))
    }
}
