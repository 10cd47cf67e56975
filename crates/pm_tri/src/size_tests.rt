//! Maps that are simple triangulations, and some that aren't.
ghost use Rattle.std.specs.Prelude.{◌≡◌, ◌%◌, length};

use super::*;
use pm_map::{ClassRefusal, RootedMap};
use std::alloc::Global;
use std::test::Fail;

const TRIANGLE: [u32; 6] = [2, 4, 0, 5, 1, 3];

// The triangle with an edge more in one of its faces.
const TRIANGLE_AND_EDGE: [u32; 8] = [2, 4, 0, 5, 6, 3, 1, 7];

const TETRAHEDRON: [u32; 12] = [2, 6, 4, 9, 0, 11, 8, 5, 1, 10, 3, 7];

// Each of its faces has degree 3, one edge is a loop.
const AROUND_A_LOOP: [u32; 6] = [2, 4, 1, 3, 0, 5];

// Each face has degree 3, and there is no loop.
const TWO_DOUBLES: [u32; 12] = [2, 10, 4, 9, 6, 8, 0, 11, 1, 3, 5, 7];

// Twelve edges, with faces of degree 3: the least loop is 8; the least double is 20.
const LATE_LOOP: [u32; 24] = [
    18, 5, 17, 11, 6, 1, 23, 0, 16, 13, 22, 14, 12, 8, 10, 15, 21, 19, 9, 4, 3, 7, 20, 2,
];

const LATE_DOUBLE: [u32; 24] = [
    19, 13, 23, 12, 8, 0, 11, 22, 3, 14, 21, 6, 4, 16, 20, 5, 1, 2, 17, 15, 7, 18, 9, 10,
];

// The closure of (ss)(ss(ss(ss)(s(s(ss)s)s)))s.
const OF_SIZE_EIGHT: [u32; 48] = [
    2, 18, 4, 23, 6, 25, 8, 35, 10, 37, 12, 39, 14, 43, 16, 45, 0, 47, 20, 17, 22, 26, 1, 24, 3,
    21, 28, 19, 30, 46, 32, 40, 34, 38, 5, 36, 7, 33, 9, 31, 42, 29, 11, 44, 13, 41, 15, 27,
];

/// What the map with this rotation and the root 0 is answered.
fn answer(alloc: Global, rotation: &[u32]) -> Result<Result<u32, ClassRefusal>, Fail>
    requires { length rotation.now % 2 ≡ 0 }
{
    let sigma = Vec::from_slice(alloc, rotation)?;
    let map = RootedMap::from_parts(alloc, sigma, 0)?;
    Ok(tri_size(alloc, &map))
}

#[test]
fn sizes(rt: HostRuntime) -> Result<(), Fail> {
    let rows: [(&[u32], Result<u32, ClassRefusal>); 9] = [
        (&[], Err(ClassRefusal::Empty)),
        (&[0, 1], Err(ClassRefusal::Face { dart: 0 })),
        (&TRIANGLE_AND_EDGE, Err(ClassRefusal::Face { dart: 1 })),
        (&AROUND_A_LOOP, Err(ClassRefusal::Loop { dart: 0 })),
        (&LATE_LOOP, Err(ClassRefusal::Loop { dart: 8 })),
        (&TWO_DOUBLES, Err(ClassRefusal::Double { dart: 0 })),
        (&LATE_DOUBLE, Err(ClassRefusal::Double { dart: 20 })),
        (&TRIANGLE, Ok(1)),
        (&TETRAHEDRON, Ok(2)),
    ];
    for (rotation, size) in rows {
        assert!(rt; rotation.len() % 2 == 0);
        assert_eq!(rt; answer(rt.alloc(), rotation)?, size);
    }
    assert_eq!(rt; answer(rt.alloc(), &OF_SIZE_EIGHT)?, Ok(8));
    Ok(())
}
