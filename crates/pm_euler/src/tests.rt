//! Small classes whole, worked lists, long lists, refusals.
ghost use Rattle.std.specs.Prelude.{◌≡◌, ◌%◌, length};

use crate::{Eulerian, Quartic};
use pm_class::{MapClass, SampleRefusal, UnsampleRefusal};
use pm_lists::ListRefusal;
use pm_map::{ClassRefusal, RootedMap};
use pm_trees::Profile;
use std::alloc::{AllocError, Global};
use std::process::Abort;
use std::test::Fail;

/// The list of this number among those that are valid for the bounds.
fn list_of(alloc: Global, bounds: &[u64], number: u64) -> Result<Vec<u64>, AllocError> {
    let mut rest = number;
    let mut list = Vec::new(alloc);
    for bound in bounds {
        list.push(rest.checked_rem(*bound).unwrap_or(0))?;
        rest = rest.checked_div(*bound).unwrap_or(0);
    }
    Ok(list)
}

/// A valid list with entries of all sizes.
fn scattered(alloc: Global, bounds: &[u64]) -> Result<Vec<u64>, AllocError> {
    let mut place = 0u64;
    let mut list = Vec::new(alloc);
    for bound in bounds {
        place = place.wrapping_add(1);
        let entry = place.wrapping_mul(place).wrapping_mul(2_654_435_761);
        list.push(entry.checked_rem(*bound).unwrap_or(0))?;
    }
    Ok(list)
}

/// The rotation of the map that the choices give. They are given back from the map and its residue.
fn rotation_of<C: MapClass>(
    rt: &impl Abort,
    alloc: Global,
    size: &C::Size,
    choices: &[u64],
) -> Result<Vec<u32>, Fail>
    requires { C.is_size size.now }
{
    let sample = C::sample(alloc, size, choices)?;
    let again = C::unsample(alloc, &sample.map, sample.residue.values())?;
    assert_eq!(rt; again.values(), choices);
    Ok(Vec::from_slice(alloc, sample.map.sigma())?)
}

/// Each of the size's lists is given back, and each map comes from as many of them.
fn each_map_as_often<C: MapClass>(
    rt: &impl Abort,
    alloc: Global,
    size: &C::Size,
    lists: u64,
    each: usize,
) -> Result<(), Fail> {
    assert!(rt; C::admissible(size));
    let bounds = C::choice_bounds(alloc, size)?;
    let mut rotations = Vec::new(alloc);
    for number in 0..lists {
        let choices = list_of(alloc, bounds.values(), number)?;
        rotations.push(rotation_of::<C>(rt, alloc, size, &choices)?)?;
    }
    rotations.sort()?;
    for same in rotations.chunk_by(|one, other| one == other) {
        assert_eq!(rt; same.len(), each);
    }
    Ok(())
}

// There are 2 * 3^n * C(2n, n) / ((n + 1) * (n + 2)) quartic maps with n vertices.
#[test]
fn quartic_maps_of_small_sizes(rt: HostRuntime) -> Result<(), Fail> {
    let rows = [
        (1, 12, 2 * 3 * 2 / (2 * 3)),
        (2, 216, 2 * 9 * 6 / (3 * 4)),
        (3, 6480, 2 * 27 * 20 / (4 * 5)),
    ];
    for (size, lists, maps) in rows {
        each_map_as_often::<Quartic>(&rt, rt.alloc(), &size, lists, lists as usize / maps)?;
    }
    Ok(())
}

// There are 2 * e! / (e - n + 2)! maps with n vertices and e edges for each choice of a bud pattern at each vertex.
#[test]
fn maps_with_few_even_degrees(rt: HostRuntime) -> Result<(), Fail> {
    let rows: [(&[(u32, u32)], u64, usize); 3] = [
        (&[(2, 1)], 4, 2 * 1 / 2),
        (&[(4, 1)], 36, 2 * 2 * 3 / 6),
        (&[(2, 1), (4, 1)], 144, 2 * 6 * 3 / 6),
    ];
    for (pairs, lists, maps) in rows {
        let profile = Profile::of_pairs(rt.alloc(), pairs)?;
        each_map_as_often::<Eulerian>(&rt, rt.alloc(), &profile, lists, lists as usize / maps)?;
    }
    Ok(())
}

fn gives<C: MapClass>(
    rt: &impl Abort,
    alloc: Global,
    size: &C::Size,
    choices: &[u64],
    rotation: &[u32],
    residue: &[u64],
) -> Result<(), Fail> {
    assert!(rt; C::admissible(size));
    let sample = C::sample(alloc, size, choices)?;
    assert_eq!(rt; sample.map.root(), 0);
    assert_eq!(rt; sample.map.sigma(), rotation);
    assert_eq!(rt; sample.residue.values(), residue);
    let again = C::unsample(alloc, &sample.map, residue)?;
    assert_eq!(rt; again.values(), choices);
    Ok(())
}

#[test]
fn worked_lists(rt: HostRuntime) -> Result<(), Fail> {
    let rows: [(u32, &[u64], &[u32], &[u64]); 4] = [
        (1, &[0, 2, 0], &[1, 2, 3, 0], &[2, 0, 0]),
        (1, &[1, 0, 1], &[1, 2, 3, 0], &[1, 1, 0]),
        (
            2,
            &[0, 0, 0, 0, 0],
            &[2, 0, 4, 5, 1, 6, 7, 3],
            &[0, 0, 1, 0],
        ),
        (
            5,
            &[1, 5, 5, 12, 16, 0, 1, 0, 2, 0, 0],
            &[
                2, 0, 4, 6, 1, 3, 8, 10, 5, 14, 12, 19, 13, 7, 16, 11, 18, 15, 9, 17,
            ],
            &[0, 2, 2, 2, 2, 1, 0],
        ),
    ];
    for (size, choices, rotation, residue) in rows {
        gives::<Quartic>(&rt, rt.alloc(), &size, choices, rotation, residue)?;
    }
    let rows: [(&[(u32, u32)], &[u64], &[u32], &[u64]); 3] = [
        (&[(4, 1)], &[0, 0, 0, 2, 0], &[1, 2, 3, 0], &[0, 0, 0, 0, 2]),
        (
            &[(2, 1), (4, 1)],
            &[3, 1, 0, 0, 0, 1, 1],
            &[2, 3, 0, 4, 5, 1],
            &[1, 0, 0, 0, 0, 2],
        ),
        (
            &[(2, 2), (4, 1), (6, 1)],
            &[4, 5, 2, 4, 0, 1, 0, 0, 0, 0, 1, 7, 0],
            &[2, 7, 4, 13, 6, 11, 0, 8, 9, 10, 12, 5, 1, 3],
            &[2, 0, 0, 0, 0, 3, 1, 0, 0, 4],
        ),
    ];
    for (pairs, choices, rotation, residue) in rows {
        let profile = Profile::of_pairs(rt.alloc(), pairs)?;
        gives::<Eulerian>(&rt, rt.alloc(), &profile, choices, rotation, residue)?;
    }
    Ok(())
}

/// A list with so many choices is given back.
fn gives_back<C: MapClass>(
    rt: &impl Abort,
    alloc: Global,
    size: &C::Size,
    many: usize,
) -> Result<(), Fail> {
    assert!(rt; C::admissible(size));
    let bounds = C::choice_bounds(alloc, size)?;
    let choices = scattered(alloc, bounds.values())?;
    assert_eq!(rt; choices.len(), many);
    let rotation = rotation_of::<C>(rt, alloc, size, &choices)?;
    assert!(rt; !rotation.is_empty());
    Ok(())
}

#[test]
fn long_lists(rt: HostRuntime) -> Result<(), Fail> {
    gives_back::<Quartic>(&rt, rt.alloc(), &60_000, 120_001)?;
    let profile = Profile::of_pairs(rt.alloc(), &[(2, 20_000), (4, 20_000)])?;
    gives_back::<Eulerian>(&rt, rt.alloc(), &profile, 100_002)?;
    let mut pairs = Vec::new(rt.alloc());
    for half in 1..33 {
        pairs.push((2 * half, 1))?;
    }
    assert_eq!(rt; pairs.len(), 32);
    let each_degree = Profile::of_pairs(rt.alloc(), &pairs)?;
    gives_back::<Eulerian>(&rt, rt.alloc(), &each_degree, 529 + 32 + 1)?;
    Ok(())
}

fn refuses_list<C: MapClass>(
    rt: &impl Abort,
    alloc: Global,
    size: &C::Size,
    choices: &[u64],
    refusal: ListRefusal,
) {
    assert!(rt; C::admissible(size));
    let answer = C::sample(alloc, size, choices).err();
    assert_eq!(rt; answer, Some(SampleRefusal::List(refusal)));
}

#[test]
fn lists_that_are_not_valid(rt: HostRuntime) -> Result<(), Fail> {
    let at_bound = |place, bound| ListRefusal::Entry {
        place,
        value: bound,
        bound,
    };
    refuses_list::<Quartic>(&rt, rt.alloc(), &1, &[2, 0, 0], at_bound(0, 2));
    let short = ListRefusal::Length { want: 3, have: 2 };
    refuses_list::<Quartic>(&rt, rt.alloc(), &1, &[0, 2], short);
    let greatest = Profile::of_pairs(rt.alloc(), &[(64, 1)])?;
    let mut choices = vec![in rt.alloc(); 0u64; 35]?;
    choices[33] = 916_312_070_471_295_267;
    let entry = at_bound(33, 916_312_070_471_295_267);
    refuses_list::<Eulerian>(&rt, rt.alloc(), &greatest, &choices, entry);
    let short = ListRefusal::Length { want: 35, have: 1 };
    refuses_list::<Eulerian>(&rt, rt.alloc(), &greatest, &[0], short);
    Ok(())
}

fn refuses_map<C: MapClass>(
    rt: &impl Abort,
    alloc: Global,
    rotation: &[u32],
    refusal: ClassRefusal,
) -> Result<(), Fail>
where
    C::Size: Drop,
    requires { length rotation.now % 2 ≡ 0 }
{
    let sigma = Vec::from_slice(alloc, rotation)?;
    let map = RootedMap::from_parts(alloc, sigma, 0)?;
    assert_eq!(rt; C::size_of(alloc, &map).err(), Some(refusal));
    let answer = C::unsample(alloc, &map, &[0]).err();
    assert_eq!(rt; answer, Some(UnsampleRefusal::Class(refusal)));
    Ok(())
}

#[test]
fn maps_of_no_class(rt: HostRuntime) -> Result<(), Fail> {
    refuses_map::<Quartic>(&rt, rt.alloc(), &[], ClassRefusal::Empty)?;
    refuses_map::<Eulerian>(&rt, rt.alloc(), &[], ClassRefusal::Empty)?;
    let two_degrees = [1, 2, 4, 5, 0, 3];
    let vertex = ClassRefusal::Vertex { dart: 3 };
    refuses_map::<Quartic>(&rt, rt.alloc(), &two_degrees, vertex)?;
    // An edge with two ends of degree 1.
    let vertex = ClassRefusal::Vertex { dart: 0 };
    refuses_map::<Eulerian>(&rt, rt.alloc(), &[0, 1], vertex)?;
    Ok(())
}

#[test]
fn residue_that_is_too_short(rt: HostRuntime) -> Result<(), Fail> {
    let loops = RootedMap::from_parts(rt.alloc(), Vec::from_slice(rt.alloc(), &[1, 2, 3, 0])?, 0)?;
    let answer = Quartic::unsample(rt.alloc(), &loops, &[0]).err();
    let refusal = ListRefusal::Length { want: 3, have: 1 };
    assert_eq!(rt; answer, Some(UnsampleRefusal::List(refusal)));
    let answer = Eulerian::unsample(rt.alloc(), &loops, &[0]).err();
    let refusal = ListRefusal::Length { want: 5, have: 1 };
    assert_eq!(rt; answer, Some(UnsampleRefusal::List(refusal)));
    Ok(())
}

#[test]
fn sizes_and_bounds(rt: HostRuntime) -> Result<(), Fail> {
    assert!(rt; !Quartic::admissible(&0));
    assert!(rt; Quartic::admissible(&1));
    assert!(rt; Quartic::admissible(&2097152));
    assert!(rt; !Quartic::admissible(&2097153));
    let choices = Quartic::choice_bounds(rt.alloc(), &3)?;
    assert_eq!(rt; choices.values(), [2, 6, 10, 3, 3, 3, 2].as_slice());
    let residues = Quartic::residue_bounds(rt.alloc(), &3)?;
    assert_eq!(rt; residues.values(), [5, 4, 3, 2, 1].as_slice());
    let profile = Profile::of_pairs(rt.alloc(), &[(2, 1), (4, 1)])?;
    let choices = Eulerian::choice_bounds(rt.alloc(), &profile)?;
    assert_eq!(rt; choices.values(), [4, 3, 2, 1, 1, 3, 2].as_slice());
    let residues = Eulerian::residue_bounds(rt.alloc(), &profile)?;
    assert_eq!(rt; residues.values(), [4, 1, 1, 2, 1, 3].as_slice());
    Ok(())
}
