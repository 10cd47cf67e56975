//! Worked words.
use super::*;
use pm_trees::read_tree;
use std::test::Fail;

#[test]
fn pairs_buds_and_leaves(rt: HostRuntime) -> Result<(), Fail> {
    for (word, pairs, free, bud) in [
        (
            b"b(bll)l".as_slice(),
            [(1, 5), (3, 4)].as_slice(),
            (0, 7),
            None,
        ),
        (b"lbl", &[(2, 3)], (0, 1), None),
        (b"llb", &[(3, 0)], (1, 2), Some(3)),
        (b"(llb)bl", &[(4, 0), (6, 7)], (2, 3), Some(4)),
    ] {
        assert!(rt; word.len() < 100);
        let tree = read_tree(rt.alloc(), word)?;
        let pairing = matching(rt.alloc(), &tree)?;
        assert_eq!(rt; (pairing.pairs(), pairing.free()), (pairs, free));
        assert_eq!(rt; free_leaves(&tree), free);
        assert_eq!(rt;
            (plant_bud(&tree), is_balanced(&tree)),
            (bud, bud.is_none())
        );
    }
    Ok(())
}
