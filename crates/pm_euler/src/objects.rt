//! The objects that a map with a given profile is made of.
ghost use Rattle.std.specs.Prelude.{◌≡◌, ◌≤◌, length, All, IfOk};
ghost use Rattle.pm_trees.specs.BudPattern.{IsHalfDegree};
ghost use Rattle.pm_trees.specs.Pairs.{edges_of};
ghost use Rattle.pm_euler.specs.Objects.{halves_of, nodes_of_profile, ranges_of};

use pm_objects::arities_of;
use pm_trees::Profile;
use std::alloc::{AllocError, Global};

/// The nodes of the profile.
pub(crate) fn nodes_of(profile: &Profile) -> u32
    ensures nodes { result ≡ nodes_of_profile profile.now }
    ensures few { result ≤ edges_of profile.now }
{
    let mut nodes = 0;
    for pair in profile.pairs() {
        nodes += pair.1;
    }
    nodes
}

/// A range of objects for each degree of the profile: half of it, and how many nodes have it.
pub(crate) fn ranges_of(alloc: Global, profile: &Profile) -> Result<Vec<(u32, u32)>, AllocError>
    ensures { IfOk result (λ ranges. ranges.items ≡ ranges_of profile.now) }
{
    let mut ranges = Vec::new(alloc);
    for pair in profile.pairs() {
        ranges.push((pair.0 / 2, pair.1))?;
    }
    Ok(ranges)
}

/// The half degrees of the node objects of a profile, in rising order.
pub(crate) fn halves_of(alloc: Global, profile: &Profile) -> Result<Vec<u32>, AllocError>
    ensures halves { IfOk result (λ halves. halves.items ≡ halves_of profile.now) }
    ensures half_degrees { IfOk result (λ halves. All IsHalfDegree halves.items) }
    ensures few { IfOk result (λ halves. length halves.items ≤ edges_of profile.now) }
{
    // Its contract says that the pairs are a profile.
    let _pairs = profile.pairs();
    let ranges = ranges_of(alloc, profile)?;
    let halves = arities_of(alloc, &ranges)?;
    Ok(halves)
}
