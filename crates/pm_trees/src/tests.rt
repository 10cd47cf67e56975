//! Worked trees.
use super::*;
use std::alloc::Global;
use std::test::Fail;

/// Why the word is refused, of fewer than 2^32 letters.
fn refusal(alloc: Global, word: &[u8]) -> Option<TreeRefusal> {
    if word.len() > 10_000_000 {
        return Some(TreeRefusal::Memory);
    }
    read_tree(alloc, word).err()
}

#[test]
fn refuses_words(rt: HostRuntime) {
    for (word, why) in [
        (b"l(".as_slice(), TreeRefusal::Text { place: 2 }),
        (b"lx)(", TreeRefusal::Text { place: 2 }),
        (b"l)x", TreeRefusal::Text { place: 2 }),
        (b"()())l(", TreeRefusal::Text { place: 5 }),
        (b"(l(l)", TreeRefusal::Text { place: 1 }),
        (b"ll", TreeRefusal::Degree { place: 0 }),
        (b"b(l(ll)l)l", TreeRefusal::Degree { place: 4 }),
        (b"b((ll)ll)l", TreeRefusal::Degree { place: 3 }),
        (b"(ll)(lll)b", TreeRefusal::Degree { place: 1 }),
        (b"lll", TreeRefusal::Buds { place: 0 }),
        (b"b(l(lll)b)l", TreeRefusal::Buds { place: 4 }),
    ] {
        assert_eq!(rt; refusal(rt.alloc(), word), Some(why));
    }
}

/// Why a word of so many leaves is refused.
fn leaves_refused(alloc: Global, letters: usize) -> Result<Option<TreeRefusal>, Fail> {
    let word = vec![in alloc; b'l'; letters]?;
    Ok(refusal(alloc, &word))
}

// The greatest number of letters, and the greatest degree.
#[test]
fn knows_the_limits(rt: HostRuntime) -> Result<(), Fail> {
    for (letters, why) in [
        (63, TreeRefusal::Buds { place: 0 }),
        (65, TreeRefusal::Degree { place: 0 }),
        (8_388_607, TreeRefusal::Degree { place: 0 }),
        (8_388_608, TreeRefusal::TooMany { letters: 8_388_608 }),
    ] {
        assert_eq!(rt; leaves_refused(rt.alloc(), letters)?, Some(why));
    }
    Ok(())
}

#[test]
fn reads_trees(rt: HostRuntime) -> Result<(), Fail> {
    for (word, edges, nodes, leaves, pairs) in [
        (b"l".as_slice(), 1, 1, 2, [(2, 1)].as_slice()),
        (b"(b(l)l)", 4, 3, 3, &[(2, 2), (4, 1)]),
        (b"b(bl(bll))l", 6, 3, 5, &[(4, 3)]),
    ] {
        assert!(rt; word.len() < 100);
        let tree = read_tree(rt.alloc(), word)?;
        assert_eq!(rt; tree.letters(), word);
        assert_eq!(rt;
            (tree.edges(), tree.nodes(), tree.leaves()),
            (edges, nodes, leaves)
        );
        let profile = profile_of(rt.alloc(), &tree)?;
        assert_eq!(rt; (profile.pairs(), profile.edges()), (pairs, edges));
    }
    Ok(())
}

#[test]
fn finds_places(rt: HostRuntime) -> Result<(), Fail> {
    let tree = read_tree(rt.alloc(), b"b(bl(bll))l")?;
    let across = brackets(rt.alloc(), &tree)?;
    assert_eq!(rt;
        across.as_slice(),
        [0, 1, 10, 3, 4, 9, 6, 7, 8, 5, 2, 11].as_slice()
    );
    for (leaf, place) in [(0, 0), (1, 4), (2, 7), (3, 8), (4, 11)] {
        assert!(rt; leaf < tree.leaves() && place as usize <= tree.letters().len());
        assert_eq!(rt; leaf_place(&tree, leaf), place);
        assert_eq!(rt; tree.leaves_before(place), leaf);
    }
    Ok(())
}

#[test]
fn replants(rt: HostRuntime) -> Result<(), Fail> {
    for (word, leaf, planted) in [
        (b"(l)bl".as_slice(), 0, b"(l)bl".as_slice()),
        (b"(l)bl", 1, b"(bll)"),
        (b"(l)bl", 2, b"l(l)b"),
        (b"b(bl(bll))l", 3, b"((llb)bl)bl"),
        (b"((llb)bl)bl", 2, b"b(bl(bll))l"),
    ] {
        assert!(rt; word.len() < 100);
        let tree = read_tree(rt.alloc(), word)?;
        assert!(rt; leaf < tree.leaves());
        assert_eq!(rt; replant(rt.alloc(), &tree, leaf)?.letters(), planted);
    }
    Ok(())
}
