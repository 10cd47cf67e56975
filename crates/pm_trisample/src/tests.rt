//! The smallest sizes whole, worked lists, a long list, refusals.
use crate::{tri_sample, tri_sample_unnamed};
use pm_canon::canon;
use pm_class::SampleRefusal;
use pm_lists::{ListRefusal, check_list};
use pm_tri::{tri_choice_bounds, tri_residue_bounds, tri_size};
use std::alloc::{AllocError, Global};
use std::process::Abort;
use std::test::Fail;

const TRIANGLE: [u32; 6] = [2, 4, 0, 5, 1, 3];

const TETRAHEDRON: [u32; 12] = [2, 6, 4, 9, 0, 11, 8, 5, 1, 10, 3, 7];

/// The choices of size `n` give the map with this rotation, whose root is 0, and this residue.
fn gives(
    rt: &impl Abort,
    alloc: Global,
    n: u32,
    choices: &[u64],
    rotation: &[u32],
    residue: &[u64],
) -> Result<(), Fail> {
    assert!(rt; 0 < n && n < 1_000_000);
    let sample = tri_sample(alloc, n, choices)?;
    assert_eq!(rt; (sample.map.root(), sample.map.sigma()), (0, rotation));
    assert_eq!(rt; sample.residue.values(), residue);
    Ok(())
}

#[test]
fn worked_lists(rt: HostRuntime) -> Result<(), Fail> {
    let rows: [(u32, &[u64], &[u32], &[u64]); 7] = [
        (1, &[0, 0, 0, 0], &TRIANGLE, &[0, 0, 0, 0]),
        (1, &[1, 0, 1, 1], &TRIANGLE, &[1, 0, 0, 1]),
        (
            2,
            &[0, 0, 0, 0, 0, 0, 0, 0],
            &TETRAHEDRON,
            &[0, 0, 0, 0, 0, 0, 0, 0],
        ),
        (
            2,
            &[5, 4, 3, 2, 1, 0, 1, 0],
            &TETRAHEDRON,
            &[5, 0, 4, 3, 2, 1, 0, 0],
        ),
        (
            2,
            &[3, 1, 2, 0, 1, 0, 1, 1],
            &TETRAHEDRON,
            &[3, 0, 4, 1, 1, 0, 0, 2],
        ),
        (
            3,
            &[9, 8, 7, 6, 5, 4, 3, 2, 1, 0, 1, 1],
            &[2, 8, 4, 13, 6, 15, 0, 17, 10, 7, 12, 16, 1, 14, 3, 11, 5, 9],
            &[8, 1, 0, 7, 6, 5, 4, 3, 2, 1, 0, 2],
        ),
        (
            3,
            &[3, 5, 1, 6, 0, 2, 3, 1, 0, 0, 0, 1],
            &[2, 6, 4, 11, 0, 15, 8, 5, 10, 17, 1, 12, 14, 9, 3, 16, 7, 13],
            &[1, 1, 0, 4, 6, 3, 4, 2, 0, 1, 0, 2],
        ),
    ];
    for (n, choices, rotation, residue) in rows {
        gives(&rt, rt.alloc(), n, choices, rotation, residue)?;
    }
    Ok(())
}

/// The list of this number among those that are valid for the bounds.
fn list_of(alloc: Global, bounds: &[u64], number: u64) -> Result<Vec<u64>, AllocError> {
    let mut rest = number;
    let mut list = Vec::new(alloc);
    for bound in bounds {
        list.push(rest.checked_rem(*bound).unwrap_or(0))?;
        rest = rest.checked_div(*bound).unwrap_or(0);
    }
    Ok(list)
}

/// The number of a list among those that are valid for the bounds.
fn number_of(bounds: &[u64], list: &[u64]) -> u64 {
    let mut number = 0u64;
    for (bound, entry) in bounds.iter().rev().zip(list.iter().rev()) {
        number = number.wrapping_mul(*bound).wrapping_add(*entry);
    }
    number
}

/// Each list of this size gives the same map, and each residue comes once.
fn each_residue_once(
    rt: &impl Abort,
    alloc: Global,
    n: u32,
    lists: u64,
    rotation: &[u32],
) -> Result<(), Fail> {
    assert!(rt; 0 < n && n < 1_000_000);
    let choice_bounds = tri_choice_bounds(alloc, n)?;
    let residue_bounds = tri_residue_bounds(alloc, n)?;
    let mut numbers = Vec::new(alloc);
    for number in 0..lists {
        let choices = list_of(alloc, choice_bounds.values(), number)?;
        let sample = tri_sample(alloc, n, &choices)?;
        assert_eq!(rt; sample.map.sigma(), rotation);
        assert!(rt; check_list(sample.residue.values(), &residue_bounds).is_ok());
        numbers.push(number_of(residue_bounds.values(), sample.residue.values()))?;
    }
    numbers.sort()?;
    for (number, found) in (0..lists).zip(numbers.iter()) {
        assert_eq!(rt; *found, number);
    }
    Ok(())
}

// With 3 and with 4 vertices there is one simple triangulation.
#[test]
fn small_sizes_whole(rt: HostRuntime) -> Result<(), Fail> {
    let bounds = tri_choice_bounds(rt.alloc(), 2)?;
    assert_eq!(rt; bounds.values(), [6, 5, 4, 3, 2, 1, 2, 2].as_slice());
    let bounds = tri_residue_bounds(rt.alloc(), 2)?;
    assert_eq!(rt; bounds.values(), [6, 1, 5, 4, 3, 2, 1, 4].as_slice());
    each_residue_once(&rt, rt.alloc(), 1, 2 * 2 * 2, &TRIANGLE)?;
    each_residue_once(&rt, rt.alloc(), 2, 720 * 2 * 2, &TETRAHEDRON)?;
    Ok(())
}

/// A valid list with entries of all sizes.
fn scattered(alloc: Global, bounds: &[u64]) -> Result<Vec<u64>, AllocError> {
    let mut place = 0u64;
    let mut list = Vec::new(alloc);
    for bound in bounds {
        place = place.wrapping_add(1);
        let entry = place.wrapping_mul(place).wrapping_mul(2_654_435_761);
        list.push(entry.checked_rem(*bound).unwrap_or(0))?;
    }
    Ok(list)
}

// The map that isn't renamed is the same.
#[test]
fn long_list(rt: HostRuntime) -> Result<(), Fail> {
    let bounds = tri_choice_bounds(rt.alloc(), 20_000)?;
    let choices = scattered(rt.alloc(), bounds.values())?;
    assert_eq!(rt; choices.len(), 80_000);
    let sample = tri_sample(rt.alloc(), 20_000, &choices)?;
    assert_eq!(rt; tri_size(rt.alloc(), &sample.map), Ok(20_000));
    assert!(rt; check_list(&choices, &bounds).is_ok());
    let unnamed = tri_sample_unnamed(rt.alloc(), 20_000, &choices)?;
    let named = canon(rt.alloc(), &unnamed.map)?;
    assert!(rt; named.sigma() == sample.map.sigma());
    assert!(rt; unnamed.residue.values() == sample.residue.values());
    Ok(())
}

#[test]
fn lists_that_are_not_valid(rt: HostRuntime) {
    let entry = ListRefusal::Entry {
        place: 2,
        value: 2,
        bound: 2,
    };
    let short = ListRefusal::Length { want: 4, have: 3 };
    for (choices, refusal) in [([0, 0, 2, 2].as_slice(), entry), (&[0, 2, 0], short)] {
        let answer = tri_sample(rt.alloc(), 1, choices).err();
        assert_eq!(rt; answer, Some(SampleRefusal::List(refusal)));
    }
}
