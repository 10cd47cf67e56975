//! How many vertices, edges and faces a map has.
ghost use Rattle.std.specs.Prelude.{◌≡◌, ◌<◌, ◌^◌, length};
ghost use Rattle.pm_perm.specs.Permutation.{IsPermutationList};
ghost use Rattle.pm_map.specs.Plane.{vertices, edges, faces};
ghost use Rattle.pm_map.specs.Rotation.{IsRootedMap, structure_of};

use crate::rooted_map::RootedMap;
use pm_perm::count_cycles;

/// How many vertices, edges and faces a map has.
#[derive(Clone, Copy, Debug, PartialEq, Eq)]
pub struct Counts {
    pub vertices: u32,
    pub edges: u32,
    pub faces: u32,
}

impl RootedMap {
    /// How many vertices, edges and faces the map has, in time linear in the darts. There are as many marks as darts,
    /// and what is left in them is free. Faces are counted by Euler's formula, which every map keeps.
    pub fn counts(&self, marks: &mut [bool]) -> Counts
        requires { length marks.old ≡ length self.now.sigma }
        ensures vertices { result.vertices ≡ vertices (structure_of self.now) }
        ensures edges { result.edges ≡ edges (structure_of self.now) }
        ensures faces { result.faces ≡ faces (structure_of self.now) }
    {
        let edges = self.edges();
        let vertices = count_vertices(self.sigma(), marks);
        Counts {
            vertices,
            edges,
            faces: edges + 2 - vertices,
        }
    }
}

/// How many vertices the rotation has, in time linear in the darts. What it leaves in `marks` is free.
pub(crate) fn count_vertices(sigma: &[u32], marks: &mut [bool]) -> u32
    requires few { length sigma.now < 2 ^ 32 }
    requires permutation { IsPermutationList sigma.now }
    requires size { length marks.old ≡ length sigma.now }
    ensures { result ≡ vertices (structure_of (record { sigma = sigma.now; root = 0 })) }
{
    if sigma.is_empty() {
        1
    } else {
        count_cycles(sigma, marks)
    }
}
