ghost use Rattle.std.specs.Prelude.{◌≡◌, ℕ, ◌*◌, ◌<◌, length, slice_index};
ghost use Rattle.pm_map.specs.Rotation.{IsRootedMap, structure_of, twin};
ghost use Rattle.pm_map.specs.Structure.{face_next};

use crate::darts::twin_of;
use std::marker::Model;

/// A rooted map of `E` edges. Its darts are `0` to `2E - 1`, the darts `2k` and `2k + 1` are twins, and the rotation
/// `sigma` carries each dart to the next one around its vertex. Contracts see it as its rotation and its root.
#[derive(Drop)]
pub struct RootedMap {
    sigma: Vec<u32>,
    root: u32,
}

impl Model for RootedMap {
    ghost use Rattle.pm_map.specs.Rotation.{RotationSystem, IsRootedMap};

    ghost Value = { RotationSystem };

    ghost view = { λ m. record { sigma = m.sigma.items; root = m.root } };

    ghost invariant = { λ m. IsRootedMap (record { sigma = m.sigma.items; root = m.root }) };
}

impl RootedMap {
    /// The map with this rotation and this root, where they make a rooted map.
    pub fn from_rooted_rotation(sigma: Vec<u32>, root: u32) -> RootedMap
        requires { IsRootedMap (record { sigma = sigma.items; root = root }) }
        ensures { result ≡ record { sigma = sigma.items; root = root } }
    {
        RootedMap { sigma, root }
    }

    /// The number of edges, half the number of darts.
    pub fn edges(&self) -> u32
        ensures edges { 2 * result ≡ length self.now.sigma }
        ensures valid { IsRootedMap self.now }
    {
        (self.sigma.len() / 2) as u32
    }

    /// The root dart, `0` where the map has no dart.
    pub fn root(&self) -> u32
        ensures { result ≡ self.now.root }
    {
        self.root
    }

    /// The rotation: entry `d` is the dart after dart `d` around its vertex.
    pub fn sigma(&self) -> &[u32]
        ensures sigma { result.now ≡ self.now.sigma }
        ensures valid { IsRootedMap self.now }
    {
        &self.sigma
    }
    /// The dart after dart `d` around its vertex.
    pub fn next(&self, d: u32) -> u32
        requires { d < length self.now.sigma }
        ensures { result ≡ slice_index self.now.sigma d }
    {
        self.sigma[d as usize]
    }

    /// The other dart of the edge of dart `d`.
    pub fn twin(&self, d: u32) -> u32
        requires { d < length self.now.sigma }
        ensures { result ≡ twin d }
    {
        twin_of(d)
    }

    /// The dart after dart `d` around its face: the one after the twin of `d` around the vertex of that twin.
    pub fn face_next(&self, d: u32) -> u32
        requires { d < length self.now.sigma }
        ensures { result ≡ face_next (structure_of self.now) d }
    {
        self.sigma[twin_of(d) as usize]
    }
}
