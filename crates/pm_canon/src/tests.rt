//! Worked values.
use crate::{canon, canonical_vertex_list, meeting_list, same, vertex_list};
use pm_map::{MapRefusal, RootedMap};
use std::alloc::{AllocError, Global};
use std::test::Fail;

// A path of two edges, with the darts 0 and 3 at its middle.
const PATH: [u32; 4] = [3, 1, 2, 0];
// Two loops at one vertex, side by side.
const LOOPS: [u32; 4] = [1, 2, 3, 0];

// What a rotation and a root are answered, and nothing where they mustn't be asked for.
fn answer_of(
    alloc: Global,
    sigma: &[u32],
    root: u32,
) -> Result<Option<Result<RootedMap, MapRefusal>>, AllocError> {
    let is_dart = (root as usize) < sigma.len() || (sigma.is_empty() && root == 0);
    if sigma.len() % 2 != 0 || !is_dart {
        return Ok(None);
    }
    let sigma = Vec::from_slice(alloc, sigma)?;
    Ok(Some(RootedMap::from_parts(alloc, sigma, root)))
}

// The darts of each map as they are met, its canonical rotation, and whether it is the path from the other dart at its
// middle: the path from its middle and from an end, the loops, no dart.
#[test]
fn meets_and_numbers(rt: HostRuntime) -> Result<(), Fail> {
    let rows: [(&[u32], u32, &[u32], &[u32], bool); 4] = [
        (&PATH, 3, &[3, 0, 2, 1], &[2, 1, 0, 3], true),
        (&PATH, 1, &[1, 0, 3, 2], &[0, 2, 1, 3], false),
        (&LOOPS, 3, &[3, 0, 1, 2], &[2, 0, 3, 1], false),
        (&[], 0, &[], &[], false),
    ];
    let path = answer_of(rt.alloc(), &PATH, 0)?;
    assert!(rt; matches!(&path, Some(Ok(_))));
    let Some(Ok(path)) = path else { return Ok(()) };
    for (sigma, root, met, canonical_sigma, is_path) in rows {
        let answer = answer_of(rt.alloc(), sigma, root)?;
        assert!(rt; matches!(&answer, Some(Ok(_))));
        let Some(Ok(map)) = answer else { return Ok(()) };
        let darts = meeting_list(rt.alloc(), map.sigma(), map.root())?;
        assert_eq!(rt; darts.as_slice(), met);
        let canonical = canon(rt.alloc(), &map)?;
        assert_eq!(rt; canonical.root(), 0);
        assert_eq!(rt; canonical.sigma(), canonical_sigma);
        assert!(rt; same(rt.alloc(), &map, &canonical)?);
        assert_eq!(rt; same(rt.alloc(), &map, &path)?, is_path);
    }
    Ok(())
}

// The vertices of the path from its middle and from an end, and of the loops, and those of their canonical maps.
#[test]
fn lists_vertices(rt: HostRuntime) -> Result<(), Fail> {
    let rows: [(&[u32], u32, &[u32], &[u32], &[u32]); 3] = [
        (&PATH, 3, &[3, 0, 2, 1], &[0, 2, 1, 3], &[2, 1, 1]),
        (&PATH, 1, &[1, 0, 3, 2], &[0, 1, 2, 3], &[1, 2, 1]),
        (&LOOPS, 3, &[3, 0, 1, 2], &[0, 2, 3, 1], &[4]),
    ];
    for (sigma, root, darts, names, sizes) in rows {
        let answer = answer_of(rt.alloc(), sigma, root)?;
        assert!(rt; matches!(&answer, Some(Ok(_))));
        let Some(Ok(map)) = answer else { return Ok(()) };
        let list = vertex_list(rt.alloc(), &map)?;
        assert_eq!(rt; list.darts.as_slice(), darts);
        assert_eq!(rt; list.sizes.as_slice(), sizes);
        let canonical = canonical_vertex_list(rt.alloc(), &map)?;
        assert_eq!(rt; canonical.darts.as_slice(), names);
        assert_eq!(rt; canonical.sizes.as_slice(), sizes);
    }
    Ok(())
}
