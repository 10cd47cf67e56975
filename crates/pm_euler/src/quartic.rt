//! Quartic maps: each vertex has degree 4.
ghost use Rattle.std.specs.Prelude.{◌≡◌, ◌+◌, ◌↔◌, IfOk, IsTrue};
ghost use Rattle.pm_limits.specs.declared.TheConstants.{MAX_EDGES};
ghost use Rattle.pm_lists.specs.Valid.{IsValidList};
ghost use Rattle.pm_map.specs.ClassRules.{IsQuarticAnswer};
ghost use Rattle.pm_map.specs.Classes.{IsQuartic};
ghost use Rattle.pm_map.specs.Rotation.{structure_of};
ghost use Rattle.pm_objects.specs.Codes.{code_bounds};
ghost use Rattle.pm_euler.specs.Bounds.{quartic_choices, quartic_prefixes, quartic_residues};
ghost use Rattle.pm_euler.specs.Quartic.{IsQuarticSize, MakesQuartic, SamplesQuartic, quartic_pairs};
ghost use Rattle.pm_euler.specs.Sampled.{IsPrefixOf, IsMade};

use crate::anew::closed_anew;
use crate::bounds::{limits_of_growth, limits_with_code};
use crate::made::Made;
use crate::planting::plant;
use crate::shape_reading::shape_and_ranks;
use crate::unplanting::unplant;
use pm_class::{MapClass, Sample};
use pm_lehmer::{arrange, code};
use pm_limits::MAX_EDGES;
use pm_lists::{Bounds, NumList};
use pm_map::{ClassRefusal, Degrees, RootedMap};
use pm_remy::{grow, labels, tree_of_shape, ungrow};
use pm_trees::Tree;
use std::alloc::{AllocError, Global};

/// The quartic maps with `n` vertices, for `n` from 1 to half of [`MAX_EDGES`]: plane maps in which each vertex has degree
/// 4 (Schaeffer 1997). Choices are those of a growth of `n` forks (Rémy 1985), then the rank of a bud pattern for each
/// fork in preorder, and then which of the two free leaves becomes the plant. The residue is the number of the old plant
/// among the leaves, and the arrangement code of the labels of the growth.
pub struct Quartic;

impl MapClass for Quartic {
    type Size = u32;

    ghost is_size = { IsQuarticSize };

    ghost choice_limits = { quartic_choices };

    ghost residue_limits = { quartic_residues };

    ghost has = { λ n m. IsQuartic (structure_of m) n };

    ghost answers = { IsQuarticAnswer };

    ghost samples = { SamplesQuartic };

    ghost MOST_EDGES = { MAX_EDGES };

    const MOST_EDGES: u32 = MAX_EDGES;

    fn admissible(size: &u32) -> bool {
        0 < *size && *size <= MAX_EDGES / 2
    }

    fn choice_bounds(alloc: Global, size: &u32) -> Result<Bounds, AllocError> {
        let limits = limits_of_choices(alloc, *size)?;
        Ok(Bounds::of(limits))
    }

    fn residue_bounds(alloc: Global, size: &u32) -> Result<Bounds, AllocError> {
        let limits = limits_with_code(alloc, u64::from(*size) + 2, *size + 1)?;
        Ok(Bounds::of(limits))
    }

    fn size_of(alloc: Global, map: &RootedMap) -> Result<u32, ClassRefusal> {
        if map.edges() == 0 {
            return Err(ClassRefusal::Empty);
        }
        let four = Degrees::Exactly { degree: 4 };
        if let Some(dart) = map.vertex_of_other_degree(alloc, four)? {
            return Err(ClassRefusal::Vertex { dart });
        }
        Ok(map.edges() / 2)
    }

    fn sample_unnamed(alloc: Global, size: &u32, choices: &[u64]) -> Result<Sample, AllocError> {
        let last = choices.len() - 1;
        let made = make(alloc, *size, &choices[..last])?;
        let closed = closed_anew(alloc, &made.tree, choices[last])?;
        let mut residue = Vec::new(alloc);
        residue.push(u64::from(closed.old_plant))?;
        residue.extend_from_slice(&made.rest)?;
        Ok(Sample {
            map: closed.map,
            residue: NumList::of(residue),
        })
    }

    fn unsample_valid(
        alloc: Global,
        size: &u32,
        map: &RootedMap,
        residue: &[u64],
    ) -> Result<NumList, AllocError> {
        // Its contract says that the map is a rooted one; so its tree has as many nodes of each degree as it has vertices.
        let _edges = map.edges();
        let unplanted = unplant(alloc, map, residue[0] as u32)?;
        let mut choices = prefix_of(alloc, *size, &unplanted.tree, &residue[1..])?;
        choices.push(unplanted.free)?;
        Ok(NumList::of(choices))
    }

    fn is_one_to_one() {}
}

/// The bounds of the choices: a growth, a bud pattern for each fork, and one of the two free leaves.
fn limits_of_choices(alloc: Global, size: u32) -> Result<Vec<u64>, AllocError>
    ensures { IfOk result (λ limits. limits.items ≡ quartic_choices size) }
{
    let mut limits = limits_of_growth(alloc, size)?;
    let patterns = vec![in alloc; 3u64; size as usize]?;
    limits.extend_from_slice(&patterns)?;
    limits.push(2)?;
    Ok(limits)
}

/// The first step: the prefix grows a binary tree, which is planted, and the rest is the code of its labels.
fn make(alloc: Global, size: u32, prefix: &[u64]) -> Result<Made, AllocError>
    requires size { IsQuarticSize size }
    requires valid { IsValidList prefix.now (quartic_prefixes size) }
    ensures { IfOk result (λ made. MakesQuartic size prefix.now made.tree made.rest.items) }
{
    let forks = size as usize;
    let grown = grow(alloc, &prefix[..forks])?;
    let tree = plant(alloc, &grown, &prefix[forks..])?;
    let leaf_labels = labels(alloc, &grown)?;
    let rest = code(alloc, &leaf_labels)?;
    Ok(Made { tree, rest })
}

/// The first step undone: the prefix that makes this tree and this rest.
fn prefix_of(alloc: Global, size: u32, tree: &Tree, rest: &[u64]) -> Result<Vec<u64>, AllocError>
    requires size { IsQuarticSize size }
    requires made { IsMade (quartic_pairs size) (code_bounds (size + 1)) tree.now rest.now }
    ensures { IfOk result (λ prefix. IsPrefixOf (quartic_prefixes size) (MakesQuartic size) prefix.items tree.now rest.now) }
{
    let read = shape_and_ranks(alloc, tree)?;
    let labels = arrange(alloc, rest)?;
    let labelled = tree_of_shape(alloc, &read.nodes, &labels)?;
    let mut prefix = ungrow(alloc, &labelled)?;
    prefix.extend_from_slice(&read.ranks)?;
    Ok(prefix)
}
