//! The calls, each with a checksum of its answer.
ghost use Rattle.std.specs.Prelude.{◌≤◌};

use crate::inputs::{choices, different_numbers, drawn_code, loops};
use crate::orders::{Call, Order, Shape};
use pm_lehmer::{arrange, code};
use pm_limits::MAX_EDGES;
use pm_map::{MapRefusal, RootedMap};
use pm_remy::{LabelTree, grow, labels, shape, ungrow};
use std::alloc::{AllocError, Global};

/// Makes the input of the order, runs the call once, and gives the checksum of the answer. Of a tree that isn't read it
/// gives the size.
///
/// # Errors
///
/// `AllocError` where memory runs out.
pub fn run(alloc: Global, order: &Order) -> Result<u64, AllocError> {
    let size = order.size as usize;
    match order.call {
        Call::Code => {
            let code = code(alloc, &different_numbers(alloc, size)?)?;
            Ok(checksum(&code))
        }
        Call::Arrange => {
            let arrangement = arrange(alloc, &drawn_code(alloc, size)?)?;
            Ok(narrow_checksum(&arrangement))
        }
        Call::Choices(shape) => {
            let choices = choices(alloc, size, shape)?;
            Ok(checksum(&choices))
        }
        Call::Tree(shape) => {
            let _tree = grown(alloc, size, shape)?;
            Ok(size as u64)
        }
        Call::Grow(shape) => {
            let tree = grown(alloc, size, shape)?;
            tree_checksum(alloc, &tree)
        }
        Call::Ungrow(shape) => {
            let tree = grown(alloc, size, shape)?;
            let choices = ungrow(alloc, &tree)?;
            Ok(checksum(&choices))
        }
        Call::Parts => parts_checksum(alloc, size),
    }
}

// The checksum of the rotation of the map of that many loops, and 0 where they make no map.
fn parts_checksum(alloc: Global, size: usize) -> Result<u64, AllocError>
    requires { size ≤ MAX_EDGES }
{
    match RootedMap::from_parts(alloc, loops(alloc, size)?, 0) {
        Ok(map) => Ok(narrow_checksum(map.sigma())),
        Err(MapRefusal::Memory) => Err(AllocError),
        Err(_) => Ok(0),
    }
}

// The tree that the choices of the shape grow.
fn grown(alloc: Global, size: usize, shape: Shape) -> Result<LabelTree, AllocError>
    requires { size ≤ MAX_EDGES }
{
    let choices = choices(alloc, size, shape)?;
    grow(alloc, &choices)
}

// A checksum of a list, in which the order of the entries counts: 31 times the checksum of those before, and the entry,
// modulo 2^64.
fn checksum(entries: &[u64]) -> u64 {
    let mut sum = 0u64;
    for entry in entries {
        sum = sum.wrapping_mul(31).wrapping_add(*entry);
    }
    sum
}

// The same of a list of smaller numbers.
fn narrow_checksum(entries: &[u32]) -> u64 {
    let mut sum = 0u64;
    for entry in entries {
        sum = sum.wrapping_mul(31).wrapping_add(u64::from(*entry));
    }
    sum
}

// The checksum of the labels from left to right, and then of the nodes in preorder, a fork as 1 and a leaf as 0.
fn tree_checksum(alloc: Global, tree: &LabelTree) -> Result<u64, AllocError> {
    let labels = labels(alloc, tree)?;
    let mut sum = narrow_checksum(&labels);
    let nodes = shape(alloc, tree)?;
    for node in &nodes {
        sum = sum.wrapping_mul(31).wrapping_add(u64::from(*node));
    }
    Ok(sum)
}
