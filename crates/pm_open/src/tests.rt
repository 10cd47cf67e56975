//! Worked openings, and trees that are closed and opened.
use super::{OpenRefusal, open_map};
use pm_close::close_tree;
use pm_map::RootedMap;
use pm_trees::{Tree, read_tree, replant};
use std::alloc::Global;
use std::process::Abort;
use std::test::Fail;

/// What the map with this rotation and this root is answered.
fn answer_to(
    rt: &impl Abort,
    alloc: Global,
    sigma: &[u32],
    root: u32,
) -> Result<Result<Tree, OpenRefusal>, Fail> {
    assert!(rt; sigma.len() % 2 == 0);
    assert!(rt; (root as usize) < sigma.len());
    let sigma = Vec::from_slice(alloc, sigma)?;
    let map = RootedMap::from_parts(alloc, sigma, root)?;
    assert!(rt; map.edges() > 0);
    Ok(open_map(alloc, &map))
}

// The last two maps are one under different names.
#[test]
fn opens(rt: HostRuntime) -> Result<(), Fail> {
    for (sigma, root, word) in [
        ([1, 2, 3, 0].as_slice(), 0, b"lbl".as_slice()),
        (&[2, 0, 4, 5, 1, 6, 7, 3], 0, b"b(bll)l"),
        (&[2, 3, 6, 5, 1, 4, 7, 0], 7, b"b(bll)l"),
    ] {
        let tree = answer_to(&rt, rt.alloc(), sigma, root)??;
        assert_eq!(rt; tree.letters(), word);
    }
    Ok(())
}

// A single edge, and two edges at a vertex of degree 2.
#[test]
fn refuses_odd_degrees(rt: HostRuntime) -> Result<(), Fail> {
    for (sigma, dart) in [([0, 1].as_slice(), 0), (&[2, 1, 0, 3], 1)] {
        let refusal = answer_to(&rt, rt.alloc(), sigma, 0)?.err();
        assert_eq!(rt; refusal, Some(OpenRefusal::Degree { dart }));
    }
    Ok(())
}

/// The tree with this word closes to a map that opens to it.
fn there_and_back(rt: &impl Abort, alloc: Global, word: &[u8]) -> Result<(), Fail> {
    assert!(rt; word.len() < 10_000_000);
    let tree = read_tree(alloc, word)?;
    let closed = close_tree(alloc, &tree)?;
    assert!(rt; closed.map.edges() > 0);
    let opened = open_map(alloc, &closed.map)?;
    assert_eq!(rt; opened.letters(), word);
    Ok(())
}

/// The tree with this word, planted at its last leaf and then at the old plant, is as before.
fn around_and_back(rt: &impl Abort, alloc: Global, word: &[u8]) -> Result<(), Fail> {
    assert!(rt; word.len() < 10_000_000);
    let tree = read_tree(alloc, word)?;
    assert!(rt; tree.leaves() > 0);
    let turned = replant(alloc, &tree, tree.leaves() - 1)?;
    assert!(rt; turned.leaves() > 1);
    assert_eq!(rt; replant(alloc, &turned, 1)?.letters(), word);
    Ok(())
}

#[test]
fn closes_and_opens(rt: HostRuntime) -> Result<(), Fail> {
    for word in [b"bll".as_slice(), b"(bll)", b"bbl(bll)l", b"b(bbl(l)l)l"] {
        there_and_back(&rt, rt.alloc(), word)?;
    }
    Ok(())
}

// A path of 100,000 nodes, each of degree 4.
#[test]
fn opens_a_deep_tree(rt: HostRuntime) -> Result<(), Fail> {
    let mut word = Vec::new(rt.alloc());
    for _ in 0..99_999 {
        word.extend_from_slice(b"b(")?;
    }
    word.extend_from_slice(b"bll")?;
    for _ in 0..99_999 {
        word.extend_from_slice(b")l")?;
    }
    around_and_back(&rt, rt.alloc(), &word)?;
    there_and_back(&rt, rt.alloc(), &word)
}
