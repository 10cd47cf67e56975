//! First calls of the libraries, one crate each.
use pm_class::{MapClass, SampleRefusal};
use pm_draw::{draw_list, rng_of};
use pm_general::General;
use pm_lists::ListRefusal;
use pm_map::RootedMap;
use pm_mapfile::{canonical_bytes, read_map_file};
use pm_reach::{CensusRefusal, census, layers};
use pm_tri::{read_tri_tree, tri_choice_bounds, tri_replant};
use pm_triclose::{TriCloseRefusal, tri_close};
use pm_trisample::{tri_sample, tri_sample_valid};
use std::test::Fail;

// A triangle: the vertices 0 2, 1 4 and 3 5, as their rotation.
#[test]
fn walks_a_face(rt: HostRuntime) -> Result<(), Fail> {
    let sigma = Vec::from_slice(rt.alloc(), &[2, 4, 0, 5, 1, 3])?;
    let map = RootedMap::from_parts(rt.alloc(), sigma, 0)?;
    let mut face = Vec::new(rt.alloc());
    for dart in map.face_walk(map.root()) {
        face.push(dart)?;
    }
    assert_eq!(rt; face.as_slice(), [0, 4, 3].as_slice());
    Ok(())
}

#[test]
fn goes_there_and_back(rt: HostRuntime) -> Result<(), Fail> {
    let edges = 1;
    assert!(rt; General::admissible(&edges));
    let sample = General::sample(rt.alloc(), &edges, &[0, 2, 0])?;
    assert_eq!(rt; sample.map.sigma(), [0, 1].as_slice());
    let choices = General::unsample(rt.alloc(), &sample.map, sample.residue.values())?;
    assert_eq!(rt; choices.values(), [0, 2, 0].as_slice());
    Ok(())
}

#[test]
fn reads_a_map_file(rt: HostRuntime) -> Result<(), Fail> {
    let file = "map 1 1\nv 1\nv 0\nend\n";
    let (map, residue) = read_map_file(rt.alloc(), file.as_bytes(), 1_000)?;
    assert!(rt; residue.is_none());
    assert_eq!(rt;
        canonical_bytes(rt.alloc(), &map)?.as_slice(),
        "map 1 0\nv 0\nv 1\nend\n".as_bytes()
    );
    Ok(())
}

#[test]
fn finds_layers(rt: HostRuntime) -> Result<(), Fail> {
    let sigma = Vec::from_slice(rt.alloc(), &[2, 4, 0, 5, 1, 3])?;
    let map = RootedMap::from_parts(rt.alloc(), sigma, 0)?;
    assert_eq!(rt;
        layers(rt.alloc(), &map)?.distances(),
        [0, 1, 1, 0, 0, 1].as_slice()
    );
    Ok(())
}

// The numbers of edges, of maps by Tutte's formula 2 · 3^n · C(2n, n) / ((n + 1)(n + 2)), and of lists for each map.
#[test]
fn takes_a_census(rt: HostRuntime) -> Result<(), Fail> {
    for (edges, maps, lists) in [(0, 1, 2), (1, 2, 6), (2, 9, 24)] {
        assert!(rt; General::admissible(&edges));
        let found = census::<General>(rt.alloc(), &edges)?;
        assert_eq!(rt; found.len(), maps);
        for k in 0..found.len() {
            assert_eq!(rt; found.lists(k), lists);
        }
    }
    Ok(())
}

#[test]
fn refuses_too_many_lists(rt: HostRuntime) -> Result<(), Fail> {
    let edges = 5;
    assert!(rt; General::admissible(&edges));
    let found = census::<General>(rt.alloc(), &edges);
    assert!(rt; matches!(found, Err(CensusRefusal::TooManyLists)));
    Ok(())
}

// Two nodes with two stems each, planted at each node's second stem in turn: the one closes to the tetrahedron.
#[test]
fn closes_a_stem_tree(rt: HostRuntime) -> Result<(), Fail> {
    let tree = read_tri_tree(rt.alloc(), "s(ss)".as_bytes())?;
    let refusal = tri_close(rt.alloc(), &tree).err();
    assert_eq!(rt; refusal, Some(TriCloseRefusal::Follows { stem: 4 }));
    assert!(rt; tree.nodes() == 2);
    let planted = tri_replant(rt.alloc(), &tree, 3)?;
    assert_eq!(rt; planted.letters(), "(ss)s".as_bytes());
    let map = tri_close(rt.alloc(), &planted)?;
    let mut marks = vec![in rt.alloc(); false; map.sigma().len()]?;
    assert_eq!(rt; map.counts(&mut marks).vertices, 4);
    Ok(())
}

// With 4 vertices there is one simple triangulation, the tetrahedron: each list gives it, with a residue of its own.
#[test]
fn samples_a_triangulation(rt: HostRuntime) -> Result<(), Fail> {
    let bounds = tri_choice_bounds(rt.alloc(), 2)?;
    assert_eq!(rt; bounds.values(), [6, 5, 4, 3, 2, 1, 2, 2].as_slice());
    let choices = draw_list(rt.alloc(), &mut rng_of(7), &bounds)?;
    let sample = tri_sample_valid(rt.alloc(), 2, choices.values())?;
    let tetrahedron = [2, 6, 4, 9, 0, 11, 8, 5, 1, 10, 3, 7];
    assert_eq!(rt; sample.map.sigma(), tetrahedron.as_slice());
    let refusal = tri_sample(rt.alloc(), 2, &[0, 0, 0]).err();
    let short = ListRefusal::Length { want: 8, have: 3 };
    assert_eq!(rt; refusal, Some(SampleRefusal::List(short)));
    Ok(())
}
