//! Worked layers.
use super::layers;
use pm_map::RootedMap;
use std::test::Fail;

// The last map has no dart.
#[test]
fn finds_layers(rt: HostRuntime) -> Result<(), Fail> {
    for (sigma, distances, parents) in [
        (
            [2, 0, 4, 5, 1, 6, 7, 3].as_slice(),
            [0, 1, 1, 2, 2, 1, 2, 3].as_slice(),
            [0, 1, 1, 3, 3, 1, 3, 7].as_slice(),
        ),
        (&[0, 1], &[0, 0], &[0, 0]),
        (&[], &[], &[]),
    ] {
        let map = RootedMap::from_parts(rt.alloc(), Vec::from_slice(rt.alloc(), sigma)?, 0)?;
        let found = layers(rt.alloc(), &map)?;
        assert_eq!(rt; found.distances(), distances);
        assert_eq!(rt; found.parents(), parents);
    }
    Ok(())
}
