//! Worked distances.
use super::face_distances;
use pm_map::RootedMap;
use std::test::Fail;

// The last map has odd degrees.
#[test]
fn finds_distances(rt: HostRuntime) -> Result<(), Fail> {
    for (sigma, root, distances) in [
        (
            [2, 0, 4, 5, 1, 6, 7, 3].as_slice(),
            0,
            [0, 1, 1, 2, 2, 1, 2, 3].as_slice(),
        ),
        (&[2, 3, 6, 5, 1, 4, 7, 0], 7, &[1, 2, 2, 1, 3, 2, 1, 0]),
        (&[0, 1], 0, &[0, 0]),
    ] {
        assert!(rt; sigma.len() % 2 == 0 && (root as usize) < sigma.len());
        let map = RootedMap::from_parts(rt.alloc(), Vec::from_slice(rt.alloc(), sigma)?, root)?;
        assert_eq!(rt; face_distances(rt.alloc(), &map)?.as_slice(), distances);
    }
    Ok(())
}
