//! Worked closings.
use super::*;
use pm_trees::read_tree;
use std::test::Fail;

#[test]
fn closes_trees(rt: HostRuntime) -> Result<(), Fail> {
    for (word, sigma, levels) in [
        (
            b"lbl".as_slice(),
            [1, 2, 3, 0].as_slice(),
            [0, 1, 0, 1].as_slice(),
        ),
        (b"bll", &[2, 0, 3, 1], &[0, 1, 1, 2]),
        (
            b"b(bll)l",
            &[2, 0, 4, 5, 1, 6, 7, 3],
            &[0, 1, 1, 2, 2, 1, 2, 3],
        ),
    ] {
        assert!(rt; word.len() < 100);
        let tree = read_tree(rt.alloc(), word)?;
        let closed = close_tree(rt.alloc(), &tree)?;
        assert_eq!(rt; (closed.map.root(), closed.map.sigma()), (0, sigma));
        assert_eq!(rt; closed.levels.values(), levels);
    }
    Ok(())
}

// The bud of the second one isn't its last.
#[test]
fn refuses_a_paired_plant(rt: HostRuntime) -> Result<(), Fail> {
    for (word, bud) in [(b"llb".as_slice(), 3), (b"(llb)bl", 4)] {
        assert!(rt; word.len() < 100);
        let tree = read_tree(rt.alloc(), word)?;
        let refusal = close_tree(rt.alloc(), &tree).err();
        assert_eq!(rt; refusal, Some(CloseRefusal::NotBalanced { bud }));
        assert_eq!(rt; close_map(rt.alloc(), &tree).err(), refusal);
    }
    Ok(())
}

#[test]
fn closes_what_is_balanced(rt: HostRuntime) -> Result<(), Fail> {
    for (word, sigma) in [
        (b"lbl".as_slice(), [1, 2, 3, 0].as_slice()),
        (b"bll", &[2, 0, 3, 1]),
        (b"b(bll)l", &[2, 0, 4, 5, 1, 6, 7, 3]),
    ] {
        assert!(rt; word.len() < 100);
        let tree = read_tree(rt.alloc(), word)?;
        assert!(rt; pm_match::is_balanced(&tree));
        let map = close_balanced(rt.alloc(), &tree)?;
        assert_eq!(rt; map.sigma(), sigma);
        let map = close_map(rt.alloc(), &tree)?;
        assert_eq!(rt; map.sigma(), sigma);
    }
    Ok(())
}
