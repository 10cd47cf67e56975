//! Worked maps, and all small ones.
use crate::{ColourRefusal, MedialRefusal, UnmedialRefusal, colour, dual, medial, unmedial};
use pm_canon::{canon, same};
use pm_map::RootedMap;
use std::alloc::{AllocError, Global};
use std::test::Fail;

// The map with this rotation and the root 0, where there is one.
fn map_of(alloc: Global, rotation: &[u32]) -> Result<Option<RootedMap>, AllocError> {
    let sigma = Vec::from_slice(alloc, rotation)?;
    if sigma.len() % 2 != 0 || sigma.len() > 10_000_000 {
        return Ok(None);
    }
    Ok(RootedMap::from_parts(alloc, sigma, 0).ok())
}

// The medial map, where the map has a dart.
fn medial_of(alloc: Global, map: &RootedMap) -> Result<RootedMap, Fail> {
    if map.sigma().is_empty() {
        return Err("no dart".into());
    }
    match medial(alloc, map) {
        Ok(found) => Ok(found),
        Err(MedialRefusal::Memory) => Err("want of memory".into()),
        Err(MedialRefusal::TooMany { .. }) => Err("too many edges".into()),
    }
}

// The unmedial, where the map has a dart, or the dart that the map is refused by.
fn unmedial_of(alloc: Global, map: &RootedMap) -> Result<Result<RootedMap, u32>, Fail> {
    if map.sigma().is_empty() {
        return Err("no dart".into());
    }
    match unmedial(alloc, map) {
        Ok(found) => Ok(Ok(found)),
        Err(UnmedialRefusal::Memory) => Err("want of memory".into()),
        Err(UnmedialRefusal::NotQuartic { dart }) => Ok(Err(dart)),
    }
}

#[test]
fn an_edge_and_two_loops(rt: HostRuntime) -> Result<(), Fail> {
    let edge = map_of(rt.alloc(), &[0, 1])?.ok_or("no map")?;
    let loops = map_of(rt.alloc(), &[1, 2, 3, 0])?.ok_or("no map")?;
    let crossed = map_of(rt.alloc(), &[2, 0, 3, 1])?.ok_or("no map")?;
    let nothing = map_of(rt.alloc(), &[])?.ok_or("no map")?;
    let circle = map_of(rt.alloc(), &[1, 0])?.ok_or("no map")?;
    assert_eq!(rt;
        medial_of(rt.alloc(), &edge)?.sigma(),
        [1, 2, 3, 0].as_slice()
    );
    let back = unmedial_of(rt.alloc(), &loops)?.ok().ok_or("not quartic")?;
    assert_eq!(rt; back.sigma(), [0, 1].as_slice());
    let back = unmedial_of(rt.alloc(), &crossed)?
        .ok()
        .ok_or("not quartic")?;
    assert_eq!(rt; back.sigma(), [1, 0].as_slice());
    assert_eq!(rt; unmedial_of(rt.alloc(), &circle)?.err(), Some(0));
    assert_eq!(rt; dual(rt.alloc(), &edge)?.sigma(), [1, 0].as_slice());
    assert!(rt; dual(rt.alloc(), &nothing)?.sigma().is_empty());
    let colours = colour(rt.alloc(), &loops).ok().ok_or("no colours")?;
    assert_eq!(rt; colours.as_slice(), [true, false, true, false].as_slice());
    assert_eq!(rt;
        colour(rt.alloc(), &edge).err(),
        Some(ColourRefusal::OddDegree { dart: 0 })
    );
    Ok(())
}

// One vertex with so many loops side by side.
fn loops(alloc: Global, edges: u32) -> Result<RootedMap, Fail> {
    let mut rotation = Vec::new(alloc);
    for dart in 1..edges.saturating_mul(2) {
        rotation.push(dart)?;
    }
    rotation.push(0)?;
    Ok(map_of(alloc, &rotation)?.ok_or("no map")?)
}

#[test]
fn large_maps(rt: HostRuntime) -> Result<(), Fail> {
    let map = loops(rt.alloc(), 100_000)?;
    let there = medial_of(rt.alloc(), &map)?;
    assert_eq!(rt; there.edges(), 200_000);
    let back = unmedial_of(rt.alloc(), &there)?.ok().ok_or("not quartic")?;
    assert!(rt; same(rt.alloc(), &map, &back)?);
    let many = loops(rt.alloc(), 2_097_153)?;
    if many.sigma().is_empty() {
        return Err("no dart".into());
    }
    assert_eq!(rt;
        medial(rt.alloc(), &many).err(),
        Some(MedialRefusal::TooMany { edges: 4_194_306 })
    );
    Ok(())
}

// The permutation of the numbers below `size` that a number stands for, each digit of it the place of one that is left.
fn permutation(alloc: Global, number: u32, size: u32) -> Result<Vec<u32>, AllocError> {
    let mut left = Vec::new(alloc);
    for value in 0..size {
        left.push(value)?;
    }
    let mut rest = number as usize;
    let mut chosen = Vec::new(alloc);
    for _ in 0..size {
        if left.is_empty() {
            break;
        }
        let place = rest % left.len();
        rest /= left.len();
        chosen.push(left.remove(place))?;
    }
    Ok(chosen)
}

// Whether the map is canonical; then both ways by medial maps and both ways by duals lead back.
fn leads_back(alloc: Global, map: &RootedMap) -> Result<bool, Fail> {
    let canonical = canon(alloc, map)?;
    if canonical.sigma() != map.sigma() || canonical.root() != map.root() {
        return Ok(false);
    }
    let there = medial_of(alloc, map)?;
    let back = unmedial_of(alloc, &there)?.ok().ok_or("not quartic")?;
    let again = medial_of(alloc, &back)?;
    let twice = dual(alloc, &dual(alloc, map)?)?;
    if canon(alloc, &back)?.sigma() != map.sigma()
        || !same(alloc, &again, &there)?
        || twice.sigma() != map.sigma()
    {
        return Err("another map came back".into());
    }
    Ok(true)
}

// All plane maps with up to four edges: 2 * 3^n * C(2n, n) / ((n + 1) (n + 2)) with n edges (Tutte 1963).
#[test]
fn all_small_maps(rt: HostRuntime) -> Result<(), Fail> {
    for (edges, orders, wanted) in [
        (1u32, 2u32, 2u32),
        (2, 24, 9),
        (3, 720, 54),
        (4, 40_320, 378),
    ] {
        let mut found = 0u32;
        for number in 0..orders {
            let sigma = permutation(rt.alloc(), number, 2 * edges)?;
            let Some(map) = map_of(rt.alloc(), &sigma)? else {
                continue;
            };
            if leads_back(rt.alloc(), &map)? {
                found = found.saturating_add(1);
            }
        }
        assert_eq!(rt; found, wanted);
    }
    Ok(())
}
