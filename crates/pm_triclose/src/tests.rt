//! Worked closures.
use super::*;
use pm_tri::read_tri_tree;
use std::test::Fail;

#[test]
fn closes_trees(rt: HostRuntime) -> Result<(), Fail> {
    for (word, rotation) in [
        (b"s".as_slice(), [2, 5, 0, 4, 3, 1].as_slice()),
        (b"(ss)s", &[2, 11, 8, 4, 6, 1, 3, 10, 0, 7, 9, 5]),
        (
            b"(ss(ss))s",
            &[2, 17, 13, 4, 6, 1, 8, 16, 3, 10, 12, 7, 9, 14, 0, 11, 15, 5],
        ),
        (
            b"(ss)(ss)s",
            &[2, 17, 8, 4, 6, 1, 3, 10, 14, 7, 12, 5, 9, 16, 0, 13, 15, 11],
        ),
        (
            b"(ss((ss)ss))s",
            &[
                2, 23, 19, 4, 6, 1, 8, 12, 3, 10, 16, 7, 14, 5, 11, 22, 18, 15, 9, 20, 0, 17, 21,
                13,
            ],
        ),
        (
            b"(ss)(ss(ss(ss)(s(s(ss)s)s)))s",
            &[
                2, 47, 8, 4, 6, 1, 3, 10, 37, 7, 12, 5, 14, 46, 43, 16, 18, 13, 20, 44, 26, 22, 24,
                19, 21, 28, 15, 25, 30, 23, 42, 32, 34, 29, 40, 36, 38, 33, 35, 9, 31, 39, 27, 41,
                0, 17, 45, 11,
            ],
        ),
    ] {
        assert!(rt; word.len() < 100);
        let tree = read_tri_tree(rt.alloc(), word)?;
        let map = tri_close(rt.alloc(), &tree)?;
        assert_eq!(rt; (map.root(), map.sigma()), (0, rotation));
    }
    Ok(())
}

#[test]
fn refuses_trees(rt: HostRuntime) -> Result<(), Fail> {
    for (word, why) in [
        (b"s(ss)".as_slice(), TriCloseRefusal::Follows { stem: 4 }),
        (b"s((ss)ss)", TriCloseRefusal::Follows { stem: 8 }),
        (b"((ss)ss)s", TriCloseRefusal::Closes { side: 2 }),
        (b"((ss)(ss)ss)s", TriCloseRefusal::Closes { side: 2 }),
    ] {
        assert!(rt; word.len() < 100);
        let tree = read_tri_tree(rt.alloc(), word)?;
        assert_eq!(rt; tri_close(rt.alloc(), &tree).err(), Some(why));
    }
    Ok(())
}
