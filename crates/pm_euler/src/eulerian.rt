//! Eulerian maps: each vertex has an even degree.
ghost use Rattle.std.specs.Prelude.{◌≡◌, ◌∷◌, ℕ, suc, List, IfOk, IsTrue, ◌↔◌, ◌<◌, ◌^◌, length};
ghost use Rattle.pm_limits.specs.declared.TheConstants.{MAX_EDGES};
ghost use Rattle.pm_lehmer.specs.Lehmer.{IsArrangementCode};
ghost use Rattle.pm_map.specs.Classes.{IsEulerian};
ghost use Rattle.pm_map.specs.Rotation.{structure_of};
ghost use Rattle.pm_trees.specs.Pairs.{IsProfile, edges_of};
ghost use Rattle.pm_lists.specs.Valid.{IsValidList};
ghost use Rattle.pm_euler.specs.Bounds.{eulerian_choices, eulerian_prefixes, eulerian_residues, eulerian_rests};
ghost use Rattle.pm_objects.specs.Preorder.{ArePreordered};
ghost use Rattle.pm_euler.specs.Eulerian.{IsEulerianAnswer, MakesEulerian, SamplesEulerian, codes_by_degree};
ghost use Rattle.pm_euler.specs.Sampled.{IsPrefixOf, IsMade};
ghost use Rattle.pm_euler.specs.Objects.{halves_of};

use crate::anew::closed_anew;
use crate::bounds::{eulerian_choice_limits, eulerian_residue_limits};
use crate::made::Made;
use crate::map_profile::profile_of_map;
use crate::object_order::{halves_in, kinds_of, ranks_by_object};
use crate::objects::{halves_of, nodes_of, ranges_of};
use crate::unplanting::unplant;
use pm_class::{MapClass, Sample};
use pm_lehmer::{arrange, code};
use pm_limits::MAX_EDGES;
use pm_lists::{Bounds, NumList};
use pm_map::{ClassRefusal, RootedMap};
use pm_objects::{codes_by_range, objects_of_codes, starts_of, turned_back};
use pm_planting::{kinds_of_tree, plant_plane};
use pm_trees::{Profile, Tree};
use pm_words::rotate;
use std::alloc::{AllocError, Global};

/// The maps whose vertices have the even degrees of a profile, as many of each as it says: plane maps (Schaeffer 1997). With
/// `e` edges and `n` vertices there are `e + 1` objects, `n` for the nodes in rising order of degree and the others for
/// leaves. Choices are the arrangement code of the objects, then the rank of a bud pattern for each node object, and then
/// which of the two free leaves becomes the plant. The residue is the start of the objects' preorder in the arrangement,
/// for each degree in rising order the arrangement code of its objects as they come in preorder, then that of the leaf
/// objects, and the number of the old plant among the leaves.
pub struct Eulerian;

impl MapClass for Eulerian {
    type Size = Profile;

    ghost is_size = { IsProfile };

    ghost choice_limits = { eulerian_choices };

    ghost residue_limits = { eulerian_residues };

    ghost has = { λ pairs m. IsEulerian (structure_of m) pairs };

    ghost answers = { IsEulerianAnswer };

    ghost samples = { SamplesEulerian };

    ghost MOST_EDGES = { MAX_EDGES };

    const MOST_EDGES: u32 = MAX_EDGES;

    fn admissible(size: &Profile) -> bool {
        !size.pairs().is_empty()
    }

    fn choice_bounds(alloc: Global, size: &Profile) -> Result<Bounds, AllocError> {
        let limits = eulerian_choice_limits(alloc, size)?;
        Ok(Bounds::of(limits))
    }

    fn residue_bounds(alloc: Global, size: &Profile) -> Result<Bounds, AllocError> {
        let limits = eulerian_residue_limits(alloc, size)?;
        Ok(Bounds::of(limits))
    }

    fn size_of(alloc: Global, map: &RootedMap) -> Result<Profile, ClassRefusal> {
        profile_of_map(alloc, map)
    }

    fn sample_unnamed(
        alloc: Global,
        size: &Profile,
        choices: &[u64],
    ) -> Result<Sample, AllocError> {
        let last = choices.len() - 1;
        let made = make(alloc, size, &choices[..last])?;
        let closed = closed_anew(alloc, &made.tree, choices[last])?;
        let mut residue = made.rest;
        residue.push(u64::from(closed.old_plant))?;
        Ok(Sample {
            map: closed.map,
            residue: NumList::of(residue),
        })
    }

    fn unsample_valid(
        alloc: Global,
        size: &Profile,
        map: &RootedMap,
        residue: &[u64],
    ) -> Result<NumList, AllocError> {
        // Its contract says that the map is a rooted one; so its tree has as many nodes of each degree as it has vertices.
        let _edges = map.edges();
        let last = residue.len() - 1;
        let unplanted = unplant(alloc, map, residue[last] as u32)?;
        let mut choices = prefix_of(alloc, size, &unplanted.tree, &residue[..last])?;
        choices.push(unplanted.free)?;
        Ok(NumList::of(choices))
    }

    fn is_one_to_one() {}
}

/// The objects in preorder, and where in their arrangement they start.
#[derive(Drop)]
struct Preorder {
    start: u32,
    objects: Vec<u32>,
}

/// The arrangement of the objects with this code, read cyclically from its one good start.
fn preorder_of(alloc: Global, halves: &[u32], code: &[u64]) -> Result<Preorder, AllocError>
    requires profile { (pairs : List (ℕ × ℕ)) × IsProfile pairs × (halves.now ≡ halves_of pairs) × (length code.now ≡ suc (edges_of pairs)) }
    requires is_code { IsArrangementCode code.now }
    ensures { IfOk result (λ preorder. ArePreordered 1 halves.now code.now preorder.start preorder.objects.items) }
{
    let arrangement = arrange(alloc, code)?;
    let starts = starts_of(alloc, halves, &arrangement, 1)?;
    let start = starts[0];
    let objects = rotate(alloc, &arrangement, start)?;
    Ok(Preorder { start, objects })
}

/// The first step: the objects in preorder are planted, and the rest is their start and their codes by degree.
fn make(alloc: Global, size: &Profile, prefix: &[u64]) -> Result<Made, AllocError>
    requires size { IsProfile size.now }
    requires valid { IsValidList prefix.now (eulerian_prefixes size.now) }
    ensures { IfOk result (λ made. MakesEulerian size.now prefix.now made.tree made.rest.items) }
{
    let halves = halves_of(alloc, size)?;
    let objects = size.edges() as usize + 1;
    let preorder = preorder_of(alloc, &halves, &prefix[..objects])?;
    let kinds = kinds_of(alloc, &halves, &prefix[objects..], &preorder.objects)?;
    let tree = plant_plane(alloc, &kinds)?;
    drop(kinds);
    let rest = rest_of(alloc, size, &halves, preorder)?;
    Ok(Made { tree, rest })
}

/// The start and the codes by degree, in a list with room for the number of the old plant.
fn rest_of(
    alloc: Global,
    profile: &Profile,
    halves: &[u32],
    preorder: Preorder,
) -> Result<Vec<u64>, AllocError>
    requires halves { halves.now ≡ halves_of profile.now }
    requires few { length preorder.objects.items < 2 ^ 32 }
    ensures { IfOk result (λ rest. rest.items ≡ preorder.start ∷ codes_by_degree profile.now preorder.objects.items) }
{
    let ranges = ranges_of(alloc, profile)?;
    let codes = codes_by_range(alloc, &ranges, halves, &preorder.objects)?;
    let start = preorder.start;
    drop(preorder);
    let mut rest = Vec::with_capacity(alloc, codes.len() + 2)?;
    rest.push(u64::from(start))?;
    rest.extend_from_slice(&codes)?;
    Ok(rest)
}

/// The first step undone: the prefix that makes this tree and this rest.
fn prefix_of(
    alloc: Global,
    size: &Profile,
    tree: &Tree,
    rest: &[u64],
) -> Result<Vec<u64>, AllocError>
    requires size { IsProfile size.now }
    requires made { IsMade size.now (eulerian_rests size.now) tree.now rest.now }
    ensures { IfOk result (λ prefix. IsPrefixOf (eulerian_prefixes size.now) (MakesEulerian size.now) prefix.items tree.now rest.now) }
{
    let kinds = kinds_of_tree(alloc, tree)?;
    let ranges = ranges_of(alloc, size)?;
    let halves = halves_in(alloc, &kinds)?;
    let objects = objects_of_codes(alloc, &ranges, &halves, &rest[1..])?;
    drop(halves);
    let ranks = ranks_by_object(alloc, nodes_of(size) as usize, &kinds, &objects)?;
    drop(kinds);
    let arrangement = turned_back(alloc, &objects, rest[0] as u32)?;
    drop(objects);
    let mut prefix = code(alloc, &arrangement)?;
    drop(arrangement);
    prefix.extend_from_slice(&ranks)?;
    Ok(prefix)
}
