//! General maps: any plane maps, by their number of edges.
ghost use Rattle.std.specs.Prelude.{◌≡◌, IfOk};
ghost use Rattle.pm_lists.specs.Valid.{IsValidList};
ghost use Rattle.pm_map.specs.Classes.{IsGeneral};
ghost use Rattle.pm_map.specs.Rotation.{structure_of};
ghost use Rattle.pm_medial.specs.Medial.{IsMedialOf};
ghost use Rattle.pm_euler.specs.Bounds.{quartic_choices, quartic_residues};
ghost use Rattle.pm_general.specs.General.{IsGeneralAnswer, IsGeneralSize, SamplesGeneral, SamplesNothing, most_general_edges, nothing};

use pm_class::{
    MapClass, Sample, SampledThrough, sample_unnamed_through, through_is_one_to_one,
    unsample_through,
};
use pm_euler::Quartic;
use pm_limits::MAX_EDGES;
use pm_lists::{Bounds, NumList};
use pm_map::{ClassRefusal, RootedMap};
use pm_medial::{MedialRefusal, medial, unmedial_of_quartic};
use std::alloc::{AllocError, Global};

/// The plane maps with `n` edges, for `n` from 0 to half of [`MAX_EDGES`]. From 1 on they are the unmedials of the maps of
/// [`Quartic`] with `n` vertices, whose choices and residues are theirs (Tutte 1963). Of size 0 there is the map without
/// darts, with one choice below 2, which goes into the residue, before a 0.
pub struct General;

impl SampledThrough for General {
    type Behind = Quartic;

    ghost image = { IsMedialOf };

    ghost contains = { λ n m. IsGeneral (structure_of m) n };

    fn map_of(alloc: Global, _size: &u32, behind: &RootedMap) -> Result<RootedMap, AllocError> {
        // Its contract says that the map is a rooted one.
        let _edges = behind.edges();
        unmedial_of_quartic(alloc, behind)
    }

    fn behind_of(alloc: Global, _size: &u32, map: &RootedMap) -> Result<RootedMap, AllocError> {
        let _edges = map.edges();
        match medial(alloc, map) {
            Ok(behind) => Ok(behind),
            Err(MedialRefusal::Memory) => Err(AllocError),
            Err(MedialRefusal::TooMany { .. }) => unreachable!(),
        }
    }

    fn is_exchanged() {}
}

impl MapClass for General {
    type Size = u32;

    ghost is_size = { IsGeneralSize };

    ghost choice_limits = { quartic_choices };

    ghost residue_limits = { quartic_residues };

    ghost has = { λ n m. IsGeneral (structure_of m) n };

    ghost answers = { IsGeneralAnswer };

    ghost samples = { SamplesGeneral };

    ghost MOST_EDGES = { most_general_edges };

    const MOST_EDGES: u32 = MAX_EDGES / 2;

    fn admissible(size: &u32) -> bool {
        *size <= Self::MOST_EDGES
    }

    fn choice_bounds(alloc: Global, size: &u32) -> Result<Bounds, AllocError> {
        if *size == 0 {
            return Ok(Bounds::of(vec![in alloc; 2u64]?));
        }
        Quartic::choice_bounds(alloc, size)
    }

    fn residue_bounds(alloc: Global, size: &u32) -> Result<Bounds, AllocError> {
        if *size == 0 {
            return Ok(Bounds::of(vec![in alloc; 2u64, 1]?));
        }
        Quartic::residue_bounds(alloc, size)
    }

    fn size_of(_alloc: Global, map: &RootedMap) -> Result<u32, ClassRefusal> {
        let edges = map.edges();
        if edges > Self::MOST_EDGES {
            return Err(ClassRefusal::TooMany {
                edges: u64::from(edges),
            });
        }
        Ok(edges)
    }

    fn sample_unnamed(alloc: Global, size: &u32, choices: &[u64]) -> Result<Sample, AllocError> {
        if *size == 0 {
            let map = RootedMap::from_rooted_rotation(Vec::new(alloc), 0);
            let residue = NumList::of(vec![in alloc; choices[0], 0]?);
            return Ok(Sample { map, residue });
        }
        sample_unnamed_through::<General>(alloc, size, choices)
    }

    fn unsample_valid(
        alloc: Global,
        size: &u32,
        map: &RootedMap,
        residue: &[u64],
    ) -> Result<NumList, AllocError> {
        if *size == 0 {
            // Its contract says that the map is a rooted one.
            let _edges = map.edges();
            return Ok(NumList::of(vec![in alloc; residue[0]]?));
        }
        unsample_through::<General>(alloc, size, map, residue)
    }

    fn is_one_to_one() {
        Quartic::is_one_to_one();
        through_is_one_to_one::<General>();
    }
}
