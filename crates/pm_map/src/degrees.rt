//! Degrees: how many darts are around a vertex or a face.
ghost use Rattle.std.specs.Prelude.{◌≡◌, ◌+◌, ◌<◌, ◌%◌, ◌^◌, length, slice_index};
ghost use Rattle.pm_perm.specs.Permutation.{IsPermutationBelow};
ghost use Rattle.pm_map.specs.CycleSize.{IsCycleSize, AreCycleSizes};
ghost use Rattle.pm_map.specs.steps.Sizes.{IsSized, step_around};
ghost use Rattle.pm_map.specs.Rotation.{structure_of};
ghost use Rattle.pm_map.specs.Structure.{face_next};

use crate::darts::twin_of;
use crate::rooted_map::RootedMap;

// What the darts go around.
#[derive(Clone, Copy)]
pub(crate) enum Around {
    Vertex,
    Face,
}

impl RootedMap {
    /// Writes the degrees of the vertices: entry `d` is the degree of the vertex of dart `d`, the number of darts at it.
    /// There are as many entries as darts. It takes time linear in the darts.
    pub fn vertex_degrees(&self, out: &mut [u32])
        requires { length out.old ≡ length self.now.sigma }
        ensures { AreCycleSizes (slice_index self.now.sigma) out.new (length self.now.sigma) }
    {
        cycle_sizes(self.sigma(), Around::Vertex, out);
    }

    /// Writes the degrees of the faces: entry `d` is the degree of the face of dart `d`, the number of darts around it.
    /// There are as many entries as darts. It takes time linear in the darts.
    pub fn face_degrees(&self, out: &mut [u32])
        requires { length out.old ≡ length self.now.sigma }
        ensures { AreCycleSizes (face_next (structure_of self.now)) out.new (length self.now.sigma) }
    {
        cycle_sizes(self.sigma(), Around::Face, out);
    }
}

/// The next dart.
fn step(sigma: &[u32], around: Around, dart: u32) -> u32
    requires even { length sigma.now % 2 ≡ 0 }
    requires within { dart < length sigma.now }
    ensures { result ≡ step_around sigma.now around dart }
{
    match around {
        Around::Vertex => sigma[dart as usize],
        Around::Face => sigma[twin_of(dart) as usize],
    }
}

/// Writes the size of the cycle of each dart.
fn cycle_sizes(sigma: &[u32], around: Around, out: &mut [u32])
    requires even { length sigma.now % 2 ≡ 0 }
    requires permutes { IsPermutationBelow (length sigma.now) (step_around sigma.now around) }
    requires few { length sigma.now < 2 ^ 32 }
    requires size { length out.old ≡ length sigma.now }
    ensures { AreCycleSizes (step_around sigma.now around) out.new (length sigma.now) }
{
    out.fill(0);
    'each: for start in 0..sigma.len() {
        if out[start] == 0 {
            let size = cycle_size(sigma, around, start as u32);
            write_cycle(sigma, around, start as u32, size, out);
        }
    }
}

/// The size of the cycle of this dart.
fn cycle_size(sigma: &[u32], around: Around, start: u32) -> u32
    requires even { length sigma.now % 2 ≡ 0 }
    requires permutes { IsPermutationBelow (length sigma.now) (step_around sigma.now around) }
    requires few { length sigma.now < 2 ^ 32 }
    requires within { start < length sigma.now }
    ensures { IsCycleSize (step_around sigma.now around) start result }
{
    let mut size = 1;
    let mut next = step(sigma, around, start);
    'walk: while next != start {
        size += 1;
        next = step(sigma, around, next);
    }
    size
}

/// Writes the size of the cycle of this dart to all darts of the cycle. The entries below it are written before.
fn write_cycle(sigma: &[u32], around: Around, start: u32, size: u32, out: &mut [u32])
    requires even { length sigma.now % 2 ≡ 0 }
    requires permutes { IsPermutationBelow (length sigma.now) (step_around sigma.now around) }
    requires within { start < length sigma.now }
    requires length { length out.old ≡ length sigma.now }
    requires size { IsCycleSize (step_around sigma.now around) start size }
    requires sized { IsSized (step_around sigma.now around) out.old start }
    ensures { IsSized (step_around sigma.now around) out.new (start + 1) }
{
    let mut next = start;
    'write: for _step in 0..size {
        out[next as usize] = size;
        next = step(sigma, around, next);
    }
}
