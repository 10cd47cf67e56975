//! A worked walk.
use super::{DartKind, Fate, pass};
use pm_map::RootedMap;
use std::test::Fail;

// Two loops side by side at a vertex: the first is cut, the second kept.
#[test]
fn passes_darts(rt: HostRuntime) -> Result<(), Fail> {
    let sigma = Vec::from_slice(rt.alloc(), &[1, 2, 3, 0])?;
    let map = RootedMap::from_parts(rt.alloc(), sigma, 0)?;
    let mut fates = vec![in rt.alloc(); Fate::Unmet; 2]?;
    for (dart, passes, kind, next) in [
        (0_u32, true, DartKind::CutFirst, 1_u32),
        (1, false, DartKind::CutAgain, 2),
        (2, false, DartKind::KeptFirst, 0),
        (3, true, DartKind::KeptAgain, 3),
    ] {
        assert!(rt; map.sigma().len() == 4 && dart < 4 && fates.len() == 2);
        let step = pass(&map, dart, passes, &mut fates);
        assert_eq!(rt; step.kind, kind);
        assert_eq!(rt; step.next, next);
    }
    Ok(())
}
