//! Worked objects: one node of arity 1, one of arity 2, and two leaves.
use crate::{arities_of, codes_by_range, push_code_bounds, turned_back};
use std::test::Fail;

const RANGES: [(u32, u32); 2] = [(1, 1), (2, 1)];

#[test]
fn objects_of_two_ranges(rt: HostRuntime) -> Result<(), Fail> {
    let arities = arities_of(rt.alloc(), &RANGES)?;
    assert_eq!(rt; arities.as_slice(), [1, 2].as_slice());
    let codes = codes_by_range(rt.alloc(), &RANGES, &arities, &[1, 0, 3, 2])?;
    assert_eq!(rt; codes.as_slice(), [0, 0, 1, 0].as_slice());
    let objects = turned_back(rt.alloc(), &[1, 0, 3, 2], 1)?;
    assert_eq!(rt; objects.as_slice(), [2, 1, 0, 3].as_slice());
    Ok(())
}

#[test]
fn bounds_of_a_code(rt: HostRuntime) -> Result<(), Fail> {
    let mut bounds = Vec::new(rt.alloc());
    bounds.push(9u64)?;
    push_code_bounds(&mut bounds, 3)?;
    assert_eq!(rt; bounds.as_slice(), [9, 3, 2, 1].as_slice());
    Ok(())
}
