//! Worked profiles and bud patterns.
use super::*;
use pm_limits::MAX_DEGREE;
use std::process::Abort;
use std::test::Fail;

#[test]
fn refuses_pairs(rt: HostRuntime) {
    for (pairs, why) in [
        ([].as_slice(), ProfileRefusal::Pair { place: 0 }),
        (&[(3, 1)], ProfileRefusal::Pair { place: 0 }),
        (&[(0, 1)], ProfileRefusal::Pair { place: 0 }),
        (&[(2, 1), (66, 1)], ProfileRefusal::Pair { place: 1 }),
        (&[(2, 1), (4, 1), (4, 1)], ProfileRefusal::Pair { place: 2 }),
        (&[(2, 1), (4, 0)], ProfileRefusal::Pair { place: 1 }),
        (
            &[(2, 4_194_305)],
            ProfileRefusal::TooMany { edges: 4_194_305 },
        ),
    ] {
        assert!(rt; pairs.len() < 100);
        assert_eq!(rt; Profile::of_pairs(rt.alloc(), pairs).err(), Some(why));
    }
}

// One node of each degree, and the greatest number of edges.
#[test]
fn takes_the_greatest_profiles(rt: HostRuntime) -> Result<(), Fail> {
    let mut pairs = Vec::new(rt.alloc());
    let mut counts = vec![in rt.alloc(); 0; 65]?;
    for half in 1..33u32 {
        pairs.push((2 * half, 1))?;
        counts[2 * half as usize] = 1;
    }
    assert!(rt; pairs.len() == 32);
    let profile = Profile::of_pairs(rt.alloc(), &pairs)?;
    assert_eq!(rt; (profile.pairs(), profile.edges()), (pairs.as_slice(), 528));
    let counted = Profile::of_counts(rt.alloc(), &counts)?;
    assert_eq!(rt; counted.pairs(), pairs.as_slice());
    let edges = Profile::of_pairs(rt.alloc(), &[(2, 4_194_304)])?.edges();
    assert_eq!(rt; edges, 4_194_304);
    Ok(())
}

#[test]
fn takes_tables(rt: HostRuntime) -> Result<(), Fail> {
    let profile = Profile::of_counts(rt.alloc(), &[7, 0, 1, 0, 3])?;
    assert_eq!(rt; profile.pairs(), [(2, 1), (4, 3)].as_slice());
    for (counts, place) in [([0, 0, 1, 2].as_slice(), 1), (&[1], 0)] {
        assert!(rt; counts.len() < 100);
        let why = Profile::of_counts(rt.alloc(), counts).err();
        assert_eq!(rt; why, Some(ProfileRefusal::Pair { place }));
    }
    Ok(())
}

/// The pattern of a rank is this one, and its rank that one.
fn there_and_back(rt: &impl Abort, rank: u64, word: &[u8]) {
    let half = (word.len() as u64 + 1) / 2;
    assert!(rt; half > 0 && half <= u64::from(MAX_DEGREE) / 2 && word.len() % 2 == 1);
    assert!(rt; rank < pattern_count(half as u32));
    let mut out = [0; 63];
    let written = &mut out[..word.len()];
    pattern(rank, half as u32, written);
    assert_eq!(rt; *written, *word);
    assert_eq!(rt; crate::rank(written), rank);
}

#[test]
fn ranks_patterns(rt: HostRuntime) {
    for (half, count) in [
        (1, 1),
        (2, 3),
        (16, 300_540_195),
        (32, 916_312_070_471_295_267),
    ] {
        assert!(rt; half > 0 && half <= MAX_DEGREE / 2);
        assert_eq!(rt; pattern_count(half), count);
    }
    for (rank, word) in [
        (0, b"c".as_slice()),
        (0, b"bcc"),
        (1, b"cbc"),
        (2, b"ccb"),
        (
            916_312_070_471_295_266,
            b"ccccccccccccccccccccccccccccccccbbbbbbbbbbbbbbbbbbbbbbbbbbbbbbb",
        ),
    ] {
        there_and_back(&rt, rank, word);
    }
}
