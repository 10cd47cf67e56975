//! Bipartite maps: each face has an even degree.
ghost use Rattle.std.specs.Prelude.{ℕ, List, IsTrue};
ghost use Rattle.pm_limits.specs.declared.TheConstants.{MAX_EDGES};
ghost use Rattle.pm_map.specs.Classes.{IsBipartite};
ghost use Rattle.pm_map.specs.Rotation.{structure_of};
ghost use Rattle.pm_trees.specs.Pairs.{IsProfile};
ghost use Rattle.pm_euler.specs.Bounds.{eulerian_choices, eulerian_residues};
ghost use Rattle.pm_general.specs.Bipartite.{IsBipartiteAnswer, IsDualStructure, SamplesBipartite};

use pm_class::{
    MapClass, Sample, SampledThrough, sample_unnamed_through, through_is_one_to_one,
    unsample_through,
};
use pm_euler::{Eulerian, profile_of_even};
use pm_limits::{MAX_DEGREE, MAX_EDGES};
use pm_lists::{Bounds, NumList};
use pm_map::{ClassRefusal, Degrees, RootedMap};
use pm_medial::dual;
use pm_trees::Profile;
use std::alloc::{AllocError, Global};

/// The maps whose faces have the even degrees of a profile, as many of each as it says: plane maps, whose vertices have two
/// colours. They are the duals of the maps of [`Eulerian`], whose choices and residues are theirs.
pub struct Bipartite;

impl SampledThrough for Bipartite {
    type Behind = Eulerian;

    ghost image = { IsDualStructure };

    ghost contains = { λ pairs m. IsBipartite (structure_of m) pairs };

    fn map_of(alloc: Global, _size: &Profile, behind: &RootedMap) -> Result<RootedMap, AllocError> {
        // Its contract says that the map is a rooted one.
        let _edges = behind.edges();
        dual(alloc, behind)
    }

    fn behind_of(alloc: Global, _size: &Profile, map: &RootedMap) -> Result<RootedMap, AllocError> {
        dual(alloc, map)
    }

    fn is_exchanged() {}
}

impl MapClass for Bipartite {
    type Size = Profile;

    ghost is_size = { IsProfile };

    ghost choice_limits = { eulerian_choices };

    ghost residue_limits = { eulerian_residues };

    ghost has = { λ pairs m. IsBipartite (structure_of m) pairs };

    ghost answers = { IsBipartiteAnswer };

    ghost samples = { SamplesBipartite };

    ghost MOST_EDGES = { MAX_EDGES };

    const MOST_EDGES: u32 = MAX_EDGES;

    fn admissible(size: &Profile) -> bool {
        Eulerian::admissible(size)
    }

    fn choice_bounds(alloc: Global, size: &Profile) -> Result<Bounds, AllocError> {
        Eulerian::choice_bounds(alloc, size)
    }

    fn residue_bounds(alloc: Global, size: &Profile) -> Result<Bounds, AllocError> {
        Eulerian::residue_bounds(alloc, size)
    }

    fn size_of(alloc: Global, map: &RootedMap) -> Result<Profile, ClassRefusal> {
        if map.edges() == 0 {
            return Err(ClassRefusal::Empty);
        }
        let even = Degrees::EvenUpTo {
            greatest: MAX_DEGREE,
        };
        if let Some(dart) = map.face_of_other_degree(alloc, even)? {
            return Err(ClassRefusal::Face { dart });
        }
        // The dual's vertices have the degrees of the faces.
        let behind = dual(alloc, map)?;
        Ok(profile_of_even(alloc, &behind)?)
    }

    fn sample_unnamed(
        alloc: Global,
        size: &Profile,
        choices: &[u64],
    ) -> Result<Sample, AllocError> {
        sample_unnamed_through::<Bipartite>(alloc, size, choices)
    }

    fn unsample_valid(
        alloc: Global,
        size: &Profile,
        map: &RootedMap,
        residue: &[u64],
    ) -> Result<NumList, AllocError> {
        unsample_through::<Bipartite>(alloc, size, map, residue)
    }

    fn is_one_to_one() {
        Eulerian::is_one_to_one();
        through_is_one_to_one::<Bipartite>();
    }
}
