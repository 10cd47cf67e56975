//! Maps as the keys of a table.
ghost use Rattle.std.proofs.Common.{rules};
ghost use Rattle.std.specs.Prelude.{◌≡◌, ◌++◌};
ghost use Rattle.std.specs.Hash as fed;
ghost use Rattle.std.specs.Cmp.Rules.{comparing, hashing};
ghost use Rattle.pm_reach.specs.Census.{is_same_map};

use pm_map::RootedMap;
use std::hash::{Hash, Hasher};
use std::marker::Model;

/// A map as a key: two are equal where they have the same rotation and the same root. Contracts see it as the map.
#[derive(Drop)]
pub struct MapKey {
    map: RootedMap,
}

impl Model for MapKey {
    ghost use Rattle.pm_map.specs.Rotation.{RotationSystem};

    ghost Value = { RotationSystem };

    ghost view = { λ key. key.map };
}

impl MapKey {
    /// The key of the map.
    pub fn of(map: RootedMap) -> MapKey
        ensures { result ≡ map }
    {
        MapKey { map }
    }

    /// The map.
    pub fn map(&self) -> &RootedMap
        ensures { result.now ≡ self.now }
    {
        &self.map
    }
}

impl PartialEq for MapKey {
    ghost eq = { is_same_map };

    ghost laws = { Prim.search (comparing, rules) };

    fn eq(&self, other: &MapKey) -> bool {
        self.map.sigma() == other.map.sigma() && self.map.root() == other.map.root()
    }
}

impl Eq for MapKey {
    ghost laws = { Prim.search (comparing, rules) };
}

impl Hash for MapKey {
    ghost hash_input = { λ map. fed.slice fed.u32 map.sigma ++ fed.u32 map.root };

    ghost respects_eq = { Prim.search (hashing, rules) };

    fn hash<H: Hasher>(&self, state: &mut H) {
        self.map.sigma().hash(state);
        self.map.root().hash(state);
    }
}
