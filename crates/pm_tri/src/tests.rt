//! Worked stem trees.
use super::*;
use std::alloc::Global;
use std::test::Fail;

/// Why the word is refused, of fewer than 2^32 letters.
fn refusal(alloc: Global, word: &[u8]) -> Option<TriTreeRefusal> {
    if word.len() > 10_000_000 {
        return Some(TriTreeRefusal::Memory);
    }
    read_tri_tree(alloc, word).err()
}

#[test]
fn refuses_words(rt: HostRuntime) {
    for (word, why) in [
        (b"s(".as_slice(), TriTreeRefusal::Text { place: 2 }),
        (b"sx)(", TriTreeRefusal::Text { place: 2 }),
        (b"sl", TriTreeRefusal::Text { place: 2 }),
        (b"s)x", TriTreeRefusal::Text { place: 2 }),
        (b"()())s(", TriTreeRefusal::Text { place: 5 }),
        (b"(s(s)", TriTreeRefusal::Text { place: 1 }),
        (b"", TriTreeRefusal::Stems { place: 0 }),
        (b"ss", TriTreeRefusal::Stems { place: 0 }),
        (b"(ss)(s)", TriTreeRefusal::Stems { place: 0 }),
        (b"((s)s)s", TriTreeRefusal::Stems { place: 1 }),
        (b"((s)ss)s", TriTreeRefusal::Stems { place: 2 }),
        (b"s(ss(s))", TriTreeRefusal::Stems { place: 5 }),
        (b"((ss)s(sss)s)s", TriTreeRefusal::Stems { place: 7 }),
    ] {
        assert_eq!(rt; refusal(rt.alloc(), word), Some(why));
    }
}

/// Why a word of so many stems is refused.
fn stems_refused(alloc: Global, letters: usize) -> Result<Option<TriTreeRefusal>, Fail> {
    let word = vec![in alloc; b's'; letters]?;
    Ok(refusal(alloc, &word))
}

// The greatest number of letters.
#[test]
fn knows_the_limit(rt: HostRuntime) -> Result<(), Fail> {
    for (letters, why) in [
        (5_592_401, TriTreeRefusal::Stems { place: 0 }),
        (5_592_402, TriTreeRefusal::TooMany { letters: 5_592_402 }),
    ] {
        assert_eq!(rt; stems_refused(rt.alloc(), letters)?, Some(why));
    }
    Ok(())
}

#[test]
fn reads_trees(rt: HostRuntime) -> Result<(), Fail> {
    for (word, nodes) in [
        (b"s".as_slice(), 1),
        (b"(ss)s", 2),
        (b"s(ss)", 2),
        (b"(ss(ss))s", 3),
        (b"(ss)(ss)s", 3),
        (b"((ss)(ss)ss)s", 4),
    ] {
        assert!(rt; word.len() < 100);
        let tree = read_tri_tree(rt.alloc(), word)?;
        assert_eq!(rt; (tree.letters(), tree.nodes()), (word, nodes));
    }
    Ok(())
}

#[test]
fn replants(rt: HostRuntime) -> Result<(), Fail> {
    for (word, stem, planted) in [
        (b"s".as_slice(), 0, b"s".as_slice()),
        (b"s", 1, b"s"),
        (b"(ss)s", 1, b"s(ss)"),
        (b"(ss)s", 3, b"s(ss)"),
        (b"(ss(ss))s", 2, b"(ss)(ss)s"),
        (b"(ss(ss))s", 3, b"s((ss)ss)"),
        (b"(ss(ss))s", 5, b"s(ss(ss))"),
    ] {
        assert!(rt; word.len() < 100);
        let tree = read_tri_tree(rt.alloc(), word)?;
        assert!(rt; stem / 2 < tree.nodes());
        assert_eq!(rt; tri_replant(rt.alloc(), &tree, stem)?.letters(), planted);
    }
    Ok(())
}

#[test]
fn finds_run_starts(rt: HostRuntime) -> Result<(), Fail> {
    for (word, starts, why) in [
        (b"s".as_slice(), (0, 1), None),
        (b"(ss(ss))s", (0, 3), None),
        (b"(ss)(ss)s", (0, 7), None),
        (b"(ss((ss)ss))s", (0, 7), None),
        (b"s(ss)", (1, 4), Some(Imbalance::Follows { stem: 4 })),
        (b"s(ss(ss))", (1, 4), Some(Imbalance::Follows { stem: 6 })),
        (b"s((ss)ss)", (5, 8), Some(Imbalance::Follows { stem: 8 })),
        (b"((ss)ss)s", (4, 7), Some(Imbalance::Closes { side: 2 })),
        (
            b"((ss)(ss)ss)s",
            (8, 11),
            Some(Imbalance::Closes { side: 2 }),
        ),
    ] {
        assert!(rt; word.len() < 100);
        let tree = read_tri_tree(rt.alloc(), word)?;
        assert_eq!(rt; run_starts(rt.alloc(), &tree)?, starts);
        assert_eq!(rt; why_not_balanced(&tree), why);
    }
    Ok(())
}
