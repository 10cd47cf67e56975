//! Worked trees: the kind of each object in preorder.
use crate::Kind::{Leaf, Node};
use crate::{Kind, kinds_of_tree};
use pm_trees::read_tree;
use std::test::Fail;

const BUDLESS: Kind = Node { half: 1, rank: 0 };

#[test]
fn kinds_of_worked_trees(rt: HostRuntime) -> Result<(), Fail> {
    let first = Node { half: 2, rank: 0 };
    let second = Node { half: 2, rank: 1 };
    let third = Node { half: 2, rank: 2 };
    let rows: [(&[u8], &[Kind]); 4] = [
        (b"l", &[BUDLESS, Leaf]),
        (b"lbl", &[second, Leaf, Leaf]),
        (b"(l)bl", &[second, BUDLESS, Leaf, Leaf]),
        (b"(bll)(l)b", &[third, first, Leaf, Leaf, BUDLESS, Leaf]),
    ];
    for (word, kinds) in rows {
        let tree = read_tree(rt.alloc(), word)?;
        let found = kinds_of_tree(rt.alloc(), &tree)?;
        assert_eq!(rt; found.as_slice(), kinds);
    }
    Ok(())
}
