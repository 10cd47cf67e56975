//! Small classes whole, worked lists, the map without darts, refusals.
ghost use Rattle.std.specs.Prelude.{◌≡◌, ◌%◌, length};

use crate::{Bipartite, General};
use pm_class::{MapClass, SampleRefusal, UnsampleRefusal};
use pm_lists::ListRefusal;
use pm_map::{ClassRefusal, RootedMap};
use pm_trees::Profile;
use std::alloc::{AllocError, Global};
use std::process::Abort;
use std::test::Fail;

/// The list of this number among those that are valid for the bounds.
fn list_of(alloc: Global, bounds: &[u64], number: u64) -> Result<Vec<u64>, AllocError> {
    let mut rest = number;
    let mut list = Vec::new(alloc);
    for bound in bounds {
        list.push(rest.checked_rem(*bound).unwrap_or(0))?;
        rest = rest.checked_div(*bound).unwrap_or(0);
    }
    Ok(list)
}

/// Each of the size's lists is given back, and each map comes from as many of them.
fn each_map_as_often<C: MapClass>(
    rt: &impl Abort,
    alloc: Global,
    size: &C::Size,
    lists: u64,
    each: usize,
) -> Result<(), Fail> {
    assert!(rt; C::admissible(size));
    let bounds = C::choice_bounds(alloc, size)?;
    let mut rotations = Vec::new(alloc);
    for number in 0..lists {
        let choices = list_of(alloc, bounds.values(), number)?;
        let sample = C::sample(alloc, size, &choices)?;
        let again = C::unsample(alloc, &sample.map, sample.residue.values())?;
        assert_eq!(rt; again.values(), choices.as_slice());
        rotations.push(Vec::from_slice(alloc, sample.map.sigma())?)?;
    }
    rotations.sort()?;
    for same in rotations.chunk_by(|one, other| one == other) {
        assert_eq!(rt; same.len(), each);
    }
    Ok(())
}

// There are 2 * 3^n * C(2n, n) / ((n + 1) * (n + 2)) maps with n edges (Tutte 1963), and (n + 2)! residues.
#[test]
fn general_maps_of_small_sizes(rt: HostRuntime) -> Result<(), Fail> {
    let rows = [
        (0, 2, 2 * 1 * 1 / (1 * 2), 2),
        (1, 12, 2 * 3 * 2 / (2 * 3), 6),
        (2, 216, 2 * 9 * 6 / (3 * 4), 24),
        (3, 6480, 2 * 27 * 20 / (4 * 5), 120),
        (4, 272_160, 2 * 81 * 70 / (5 * 6), 720),
    ];
    for (size, lists, maps, each) in rows {
        assert_eq!(rt; lists as usize / maps, each);
        each_map_as_often::<General>(&rt, rt.alloc(), &size, lists, each)?;
    }
    Ok(())
}

// As many as maps with so many vertices of even degrees: 2 * e! / (e - n + 2)! for each choice of a bud pattern at each.
#[test]
fn maps_with_few_even_faces(rt: HostRuntime) -> Result<(), Fail> {
    let rows: [(&[(u32, u32)], u64, usize); 3] = [
        (&[(2, 1)], 4, 2 * 1 / 2),
        (&[(4, 1)], 36, 2 * 2 * 3 / 6),
        (&[(2, 1), (4, 1)], 144, 2 * 6 * 3 / 6),
    ];
    for (pairs, lists, maps) in rows {
        let profile = Profile::of_pairs(rt.alloc(), pairs)?;
        each_map_as_often::<Bipartite>(&rt, rt.alloc(), &profile, lists, lists as usize / maps)?;
    }
    Ok(())
}

fn gives<C: MapClass>(
    rt: &impl Abort,
    alloc: Global,
    size: &C::Size,
    choices: &[u64],
    rotation: &[u32],
    residue: &[u64],
) -> Result<(), Fail> {
    assert!(rt; C::admissible(size));
    let sample = C::sample(alloc, size, choices)?;
    assert_eq!(rt; sample.map.root(), 0);
    assert_eq!(rt; sample.map.sigma(), rotation);
    assert_eq!(rt; sample.residue.values(), residue);
    let again = C::unsample(alloc, &sample.map, residue)?;
    assert_eq!(rt; again.values(), choices);
    Ok(())
}

#[test]
fn worked_lists(rt: HostRuntime) -> Result<(), Fail> {
    let rows: [(u32, &[u64], &[u32], &[u64]); 5] = [
        (0, &[1], &[], &[1, 0]),
        (1, &[0, 2, 0], &[0, 1], &[2, 0, 0]),
        (1, &[0, 0, 0], &[1, 0], &[0, 0, 0]),
        (2, &[0, 0, 0, 0, 0], &[1, 2, 0, 3], &[0, 0, 1, 0]),
        (
            5,
            &[1, 5, 5, 12, 16, 0, 1, 0, 2, 0, 0],
            &[1, 2, 4, 0, 6, 7, 8, 5, 3, 9],
            &[0, 2, 2, 2, 2, 1, 0],
        ),
    ];
    for (size, choices, rotation, residue) in rows {
        gives::<General>(&rt, rt.alloc(), &size, choices, rotation, residue)?;
    }
    let rows: [(&[(u32, u32)], &[u64], &[u32], &[u64]); 3] = [
        (&[(4, 1)], &[0, 0, 0, 2, 0], &[2, 1, 0, 3], &[0, 0, 0, 0, 2]),
        (
            &[(2, 1), (4, 1)],
            &[3, 1, 0, 0, 0, 1, 1],
            &[2, 3, 0, 4, 1, 5],
            &[1, 0, 0, 0, 0, 2],
        ),
        (
            &[(2, 2), (4, 1), (6, 1)],
            &[4, 5, 2, 4, 0, 1, 0, 0, 0, 0, 1, 7, 0],
            &[2, 4, 0, 8, 6, 13, 1, 5, 10, 9, 12, 7, 3, 11],
            &[2, 0, 0, 0, 0, 3, 1, 0, 0, 4],
        ),
    ];
    for (pairs, choices, rotation, residue) in rows {
        let profile = Profile::of_pairs(rt.alloc(), pairs)?;
        gives::<Bipartite>(&rt, rt.alloc(), &profile, choices, rotation, residue)?;
    }
    Ok(())
}

/// The map without darts, or one vertex with so many loops side by side.
fn loops(alloc: Global, edges: u32) -> Result<RootedMap, Fail> {
    let mut rotation = Vec::new(alloc);
    for dart in 1..edges.saturating_mul(2) {
        rotation.push(dart)?;
    }
    if edges > 0 {
        rotation.push(0)?;
    }
    map_of(alloc, rotation)
}

/// The map with this rotation and the root 0.
fn map_of(alloc: Global, rotation: Vec<u32>) -> Result<RootedMap, Fail> {
    if rotation.len() % 2 != 0 || rotation.len() > 10_000_000 {
        return Err("no darts in pairs".into());
    }
    Ok(RootedMap::from_parts(alloc, rotation, 0)?)
}

#[test]
fn sizes_of_maps(rt: HostRuntime) -> Result<(), Fail> {
    for (edges, size, refusal) in [
        (0, Some(0), None),
        (2_097_152, Some(2_097_152), None),
        (
            2_097_153,
            None,
            Some(ClassRefusal::TooMany { edges: 2_097_153 }),
        ),
    ] {
        let map = loops(rt.alloc(), edges)?;
        let answer = General::size_of(rt.alloc(), &map);
        assert_eq!(rt; answer.as_ref().err().copied(), refusal);
        assert_eq!(rt; answer.ok(), size);
    }
    // The last row is a star, with one face of degree 66.
    let mut star = Vec::new(rt.alloc());
    for edge in 0..33u32 {
        star.push((2 * edge + 2) % 66)?;
        star.push(2 * edge + 1)?;
    }
    let rows: [(&[u32], ClassRefusal); 4] = [
        (&[], ClassRefusal::Empty),
        (&[1, 0], ClassRefusal::Face { dart: 0 }),
        (&[0, 2, 3, 4, 5, 1], ClassRefusal::Face { dart: 3 }),
        (&star, ClassRefusal::Face { dart: 0 }),
    ];
    for (rotation, refusal) in rows {
        let map = map_of(rt.alloc(), Vec::from_slice(rt.alloc(), rotation)?)?;
        assert_eq!(rt; Bipartite::size_of(rt.alloc(), &map).err(), Some(refusal));
        let answer = Bipartite::unsample(rt.alloc(), &map, &[0]).err();
        assert_eq!(rt; answer, Some(UnsampleRefusal::Class(refusal)));
    }
    Ok(())
}

#[test]
fn sizes_and_bounds(rt: HostRuntime) -> Result<(), Fail> {
    for (size, admissible) in [(0, true), (2_097_152, true), (2_097_153, false)] {
        assert_eq!(rt; General::admissible(&size), admissible);
    }
    let rows: [(u32, &[u64], &[u64]); 2] = [
        (0, &[2], &[2, 1]),
        (3, &[2, 6, 10, 3, 3, 3, 2], &[5, 4, 3, 2, 1]),
    ];
    for (size, choices, residues) in rows {
        assert!(rt; General::admissible(&size));
        assert_eq!(rt;
            General::choice_bounds(rt.alloc(), &size)?.values(),
            choices
        );
        assert_eq!(rt;
            General::residue_bounds(rt.alloc(), &size)?.values(),
            residues
        );
    }
    let answer = General::sample(rt.alloc(), &0, &[2]).err();
    let at_bound = ListRefusal::Entry {
        place: 0,
        value: 2,
        bound: 2,
    };
    assert_eq!(rt; answer, Some(SampleRefusal::List(at_bound)));
    Ok(())
}

/// The list with entries halfway to their bounds is given back.
fn gives_back<C: MapClass>(
    rt: &impl Abort,
    alloc: Global,
    size: &C::Size,
    many: usize,
) -> Result<(), Fail> {
    assert!(rt; C::admissible(size));
    let bounds = C::choice_bounds(alloc, size)?;
    let mut choices = Vec::new(alloc);
    for bound in bounds.values() {
        choices.push(bound / 2)?;
    }
    assert_eq!(rt; choices.len(), many);
    let sample = C::sample(alloc, size, &choices)?;
    let again = C::unsample(alloc, &sample.map, sample.residue.values())?;
    assert_eq!(rt; again.values(), choices.as_slice());
    Ok(())
}

#[test]
fn long_lists(rt: HostRuntime) -> Result<(), Fail> {
    gives_back::<General>(&rt, rt.alloc(), &60_000, 120_001)?;
    let profile = Profile::of_pairs(rt.alloc(), &[(2, 20_000), (4, 20_000)])?;
    gives_back::<Bipartite>(&rt, rt.alloc(), &profile, 100_002)
}
