//! The kinds of objects, and what the kinds of a tree's objects tell of them.
ghost use Rattle.std.specs.Prelude.{◌≡◌, ℕ, ◌<◌, All, length, map, slice_index, slice_index_or, IfOk};
ghost use Rattle.pm_perm.specs.Permutation.{IsPermutationList};
ghost use Rattle.pm_planting.specs.Kinds.{half_of, halves_in};
ghost use Rattle.pm_planting.specs.declared.kind.Kind.TheVariants.{Leaf, Node};
ghost use Rattle.pm_trees.specs.BudPattern.{IsHalfDegree};
ghost use Rattle.pm_euler.specs.Objects.{kind_of, kinds_of};

use pm_planting::Kind;
use std::alloc::{AllocError, Global};

/// The kinds of these objects, where the half degrees and the ranks are those of the node objects.
pub(crate) fn kinds_of(
    alloc: Global,
    halves: &[u32],
    ranks: &[u64],
    objects: &[u32],
) -> Result<Vec<Kind>, AllocError>
    requires halves { All IsHalfDegree halves.now }
    requires ranked { length ranks.now ≡ length halves.now }
    ensures { IfOk result (λ kinds. kinds.items ≡ kinds_of halves.now ranks.now objects.now) }
{
    objects
        .iter()
        .map(|object| kind_of(halves, ranks, *object))
        .collect(alloc)
}

/// The kind of an object.
fn kind_of(halves: &[u32], ranks: &[u64], object: u32) -> Kind
    requires halves { All IsHalfDegree halves.now }
    requires ranked { length ranks.now ≡ length halves.now }
    ensures { result ≡ kind_of halves.now ranks.now object }
{
    let object = object as usize;
    if object >= halves.len() {
        return Kind::Leaf;
    }
    Kind::Node {
        half: halves[object],
        rank: ranks[object],
    }
}

/// The ranks by object, where the objects in preorder have these kinds.
pub(crate) fn ranks_by_object(
    alloc: Global,
    nodes: usize,
    kinds: &[Kind],
    objects: &[u32],
) -> Result<Vec<u64>, AllocError>
    requires as_long { length objects.now ≡ length kinds.now }
    requires permute { IsPermutationList objects.now }
    requires nodes { (place half rank : ℕ) → place < length kinds.now → slice_index_or kinds.now place Leaf ≡ Node half rank → slice_index objects.now place < nodes }
    ensures as_many { IfOk result (λ ranks. length ranks.items ≡ nodes) }
    ensures ranked { IfOk result (λ ranks. (place half rank : ℕ) → place < length kinds.now → slice_index_or kinds.now place Leaf ≡ Node half rank → slice_index ranks.items (slice_index objects.now place) ≡ rank) }
{
    let mut ranks = vec![in alloc; 0u64; nodes]?;
    'kinds: for (place, kind) in kinds.iter().enumerate() {
        let Kind::Node { rank, .. } = *kind else {
            continue 'kinds;
        };
        ranks[objects[place] as usize] = rank;
    }
    Ok(ranks)
}

/// The half degrees of the objects with these kinds.
pub(crate) fn halves_in(alloc: Global, kinds: &[Kind]) -> Result<Vec<u32>, AllocError>
    ensures { IfOk result (λ halves. halves.items ≡ halves_in kinds.now) }
{
    kinds.iter().map(|kind| kind.half()).collect(alloc)
}
