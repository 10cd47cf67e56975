//! Small maps, and one with many darts.
use super::*;
use std::alloc::{AllocError, Global};
use std::test::Fail;

// Two loops at one vertex, side by side: the rotation goes through both darts of the one, then both of the other.
const LOOPS: [u32; 4] = [1, 2, 3, 0];
// A vertex of degree 2, with the darts 0 and 2, and one of degree 4. The faces are 0 3, 1 2 4 and 5.
const LOOP_AND_TWO_EDGES: [u32; 6] = [2, 3, 0, 4, 5, 1];

const TETRAHEDRON: [u32; 12] = [2, 6, 4, 9, 0, 11, 8, 5, 1, 10, 3, 7];

// What a rotation and a root are answered, and nothing where they mustn't be asked for.
fn answer_of(
    alloc: Global,
    sigma: &[u32],
    root: u32,
) -> Result<Option<Result<RootedMap, MapRefusal>>, AllocError> {
    let is_dart = (root as usize) < sigma.len() || (sigma.is_empty() && root == 0);
    if sigma.len() % 2 != 0 || !is_dart {
        return Ok(None);
    }
    let sigma = Vec::from_slice(alloc, sigma)?;
    Ok(Some(RootedMap::from_parts(alloc, sigma, root)))
}

#[test]
fn steps(rt: HostRuntime) -> Result<(), Fail> {
    let answer = answer_of(rt.alloc(), &LOOPS, 2)?;
    assert!(rt; matches!(&answer, Some(Ok(_))));
    let Some(Ok(loops)) = answer else {
        return Ok(())
    };
    assert_eq!(rt; loops.root(), 2);
    assert_eq!(rt; loops.sigma(), LOOPS.as_slice());
    assert_eq!(rt; loops.next(3), 0);
    assert_eq!(rt; loops.twin(2), 3);
    assert_eq!(rt; loops.face_next(0), 2);
    assert_eq!(rt; loops.face_next(1), 1);
    let mut outer = loops.face_walk(2);
    assert_eq!(rt; outer.next(), Some(2));
    assert_eq!(rt; outer.next(), Some(0));
    assert_eq!(rt; outer.next(), None);
    assert_eq!(rt; outer.next(), None);
    Ok(())
}

// A rotation that leaves out 3; two vertices with two loops each; two loops that cross, on a torus.
#[test]
fn refusals(rt: HostRuntime) -> Result<(), Fail> {
    let rows: [(&[u32], MapRefusal); 3] = [
        (&[1, 2, 2, 0], MapRefusal::NotPermutation { dart: 3 }),
        (
            &[1, 2, 3, 0, 6, 7, 5, 4],
            MapRefusal::NotConnected { dart: 4 },
        ),
        (&[2, 3, 1, 0], MapRefusal::Genus { euler: 0 }),
    ];
    for (sigma, refusal) in rows {
        let answer = answer_of(rt.alloc(), sigma, 0)?;
        assert_eq!(rt; answer.and_then(|answer| answer.err()), Some(refusal));
    }
    Ok(())
}

// One edge above the limit.
#[test]
fn too_many(rt: HostRuntime) -> Result<(), Fail> {
    let sigma = vec![in rt.alloc(); 0; 8_388_610]?;
    let answer = RootedMap::from_parts(rt.alloc(), sigma, 0);
    assert_eq!(rt;
        answer.err(),
        Some(MapRefusal::TooMany { edges: 4_194_305 })
    );
    Ok(())
}

// How many vertices, edges and faces, the degrees of the vertices and of the faces, and why it isn't simple: no dart,
// two loops, a double edge, a loop and two edges, an edge and a double edge, a tetrahedron.
#[test]
fn counts_and_degrees(rt: HostRuntime) -> Result<(), Fail> {
    let rows: [(&[u32], [u32; 3], &[u32], &[u32], Option<NotSimple>); 6] = [
        (&[], [1, 0, 1], &[], &[], None),
        (
            &LOOPS,
            [1, 2, 3],
            &[4, 4, 4, 4],
            &[2, 1, 2, 1],
            Some(NotSimple::Loop { dart: 0 }),
        ),
        (
            &[2, 3, 0, 1],
            [2, 2, 2],
            &[2, 2, 2, 2],
            &[2, 2, 2, 2],
            Some(NotSimple::Double { dart: 0 }),
        ),
        (
            &LOOP_AND_TWO_EDGES,
            [2, 3, 3],
            &[2, 4, 2, 4, 4, 4],
            &[2, 3, 3, 2, 3, 1],
            Some(NotSimple::Loop { dart: 4 }),
        ),
        (
            &[0, 2, 4, 5, 1, 3],
            [3, 3, 2],
            &[1, 3, 3, 2, 3, 2],
            &[4, 4, 4, 2, 2, 4],
            Some(NotSimple::Double { dart: 2 }),
        ),
        (&TETRAHEDRON, [4, 6, 4], &[3; 12], &[3; 12], None),
    ];
    for (sigma, [vertices, edges, faces], of_vertices, of_faces, why) in rows {
        let answer = answer_of(rt.alloc(), sigma, 0)?;
        assert!(rt; matches!(&answer, Some(Ok(_))));
        let Some(Ok(map)) = answer else { return Ok(()) };
        let mut marks = vec![in rt.alloc(); false; map.sigma().len()]?;
        assert_eq!(rt;
            map.counts(&mut marks),
            Counts {
                vertices,
                edges,
                faces
            }
        );
        let mut degrees = vec![in rt.alloc(); 9u32; map.sigma().len()]?;
        map.vertex_degrees(&mut degrees);
        assert_eq!(rt; degrees.as_slice(), of_vertices);
        map.face_degrees(&mut degrees);
        assert_eq!(rt; degrees.as_slice(), of_faces);
        assert_eq!(rt; map.why_not_simple(rt.alloc())?, why);
        assert_eq!(rt; map.is_simple(rt.alloc())?, why.is_none());
    }
    Ok(())
}

// The least dart of another degree, around its vertex and around its face.
#[test]
fn other_degrees(rt: HostRuntime) -> Result<(), Fail> {
    let rows: [(&[u32], Degrees, Option<u32>, Option<u32>); 6] = [
        (
            &LOOP_AND_TWO_EDGES,
            Degrees::Exactly { degree: 4 },
            Some(0),
            Some(0),
        ),
        (
            &LOOP_AND_TWO_EDGES,
            Degrees::EvenUpTo { greatest: 4 },
            None,
            Some(1),
        ),
        (
            &LOOP_AND_TWO_EDGES,
            Degrees::EvenUpTo { greatest: 2 },
            Some(1),
            Some(1),
        ),
        (&LOOPS, Degrees::Exactly { degree: 4 }, None, Some(0)),
        (&TETRAHEDRON, Degrees::Exactly { degree: 3 }, None, None),
        (&[], Degrees::Exactly { degree: 4 }, None, None),
    ];
    for (sigma, degrees, vertex, face) in rows {
        let answer = answer_of(rt.alloc(), sigma, 0)?;
        assert!(rt; matches!(&answer, Some(Ok(_))));
        let Some(Ok(map)) = answer else { return Ok(()) };
        assert_eq!(rt; map.vertex_of_other_degree(rt.alloc(), degrees)?, vertex);
        assert_eq!(rt; map.face_of_other_degree(rt.alloc(), degrees)?, face);
    }
    Ok(())
}

#[test]
fn vertices_of_each_degree(rt: HostRuntime) -> Result<(), Fail> {
    let rows: [(&[u32], u32, &[u32]); 3] = [
        (&[], 2, &[1, 0, 0]),
        (&LOOP_AND_TWO_EDGES, 4, &[0, 0, 1, 0, 1]),
        (&LOOP_AND_TWO_EDGES, 3, &[0, 0, 1, 0]),
    ];
    for (sigma, greatest, wanted) in rows {
        let answer = answer_of(rt.alloc(), sigma, 0)?;
        assert!(rt; matches!(&answer, Some(Ok(_))));
        let Some(Ok(map)) = answer else { return Ok(()) };
        if greatest < 64 {
            let table = map.vertices_by_degree(rt.alloc(), greatest)?;
            assert_eq!(rt; table.as_slice(), wanted);
        }
    }
    Ok(())
}

// A ring of 100,000 edges, whose vertices are the darts 1 2, then 3 4, and so on; the vertex of 149,999 has a loop.
#[test]
fn other_degree_far_behind(rt: HostRuntime) -> Result<(), Fail> {
    let mut sigma = Vec::new(rt.alloc());
    for dart in 0..200_002u32 {
        sigma.push(match dart {
            150_000 => 200_000,
            200_000 => 200_001,
            200_001 => 149_999,
            199_999 => 0,
            0 => 199_999,
            dart if dart % 2 == 1 => dart + 1,
            dart => dart - 1,
        })?;
    }
    let answer = answer_of(rt.alloc(), &sigma, 0)?;
    assert!(rt; matches!(&answer, Some(Ok(_))));
    let Some(Ok(map)) = answer else { return Ok(()) };
    let two = Degrees::EvenUpTo { greatest: 2 };
    let four = Degrees::EvenUpTo { greatest: 4 };
    assert_eq!(rt; map.vertex_of_other_degree(rt.alloc(), two)?, Some(149_999));
    assert_eq!(rt; map.vertex_of_other_degree(rt.alloc(), four)?, None);
    let face = Degrees::EvenUpTo { greatest: 100_000 };
    assert_eq!(rt; map.face_of_other_degree(rt.alloc(), face)?, Some(1));
    Ok(())
}
