ghost use Rattle.std.specs.Prelude.{◌≡◌, ◌<◌, ◌≤◌, ◌*◌, ◌+◌, ℕ, length, slice_index, IfOk};
ghost use Rattle.pm_remy.specs.Growth.{IsChoices};

use crate::*;
use std::alloc::{AllocError, Global};
use std::test::Fail;

// The trees of all lists of three choices in rising order, each by its nodes in preorder: `f` for a fork, and the label
// of a leaf. The values are those of the definition, and no two are the same.
const GROWN: &[u8] = b"\
    fff0321fff3021fff0213f3ff021ff02f13ff02f31fff0231ff3f021ff0f231ff0f321\
    ff2f031ff2f301fff2013f3ff201ff20f13ff20f31fff2031ff3f201fff2301fff3201\
    fff0312fff3012fff0132ff3f012ff0f132ff0f312fff0123f3ff012ff01f23ff01f32\
    f2ff031f2ff301f2ff013f2f3f01f2f0f13f2f0f31ff2f013f3f2f01ff23f01ff32f01\
    ff03f12ff30f12ff0f123f3f0f12f0ff132f0ff312f0ff123f0f3f12f0f1f23f0f1f32\
    ff03f21ff30f21ff0f213f3f0f21f0f2f13f0f2f31f0ff213f0f3f21f0ff231f0ff321\
    f1ff032f1ff302ff1f023f3f1f02ff13f02ff31f02f1ff023f1f3f02f1f0f23f1f0f32\
    f1f2f03f1f2f30ff1f203f3f1f20ff13f20ff31f20f1ff203f1f3f20f1ff230f1ff320\
    ff1f032ff1f302fff1032ff3f102fff1302fff3102fff1023f3ff102ff10f23ff10f32\
    f2f1f03f2f1f30f2ff103f2f3f10f2ff130f2ff310ff2f103f3f2f10ff23f10ff32f10\
    ff12f03ff12f30fff1203f3ff120fff1320fff3120fff1230ff3f120ff1f230ff1f320\
    ff21f03ff21f30fff2103f3ff210ff2f130ff2f310fff2130ff3f210fff2310fff3210\
    ";

fn word(alloc: Global, tree: &LabelTree) -> Result<Vec<u8>, AllocError> {
    let nodes = shape(alloc, tree)?;
    let found = labels(alloc, tree)?;
    let mut left = found.iter();
    let mut text = Vec::new(alloc);
    for node in &nodes {
        if *node {
            text.push(b'f')?;
        } else if let Some(label) = left.next() {
            text.push(b'0' + (*label % 10) as u8)?;
        }
    }
    Ok(text)
}

fn grow_three(alloc: Global, a: u64, b: u64, c: u64) -> Result<LabelTree, AllocError>
    requires a_in { a < 2 }
    requires b_in { b < 6 }
    requires c_in { c < 10 }
{
    grow(alloc, &[a, b, c])
}

#[test]
fn all_lists_of_three_choices(rt: HostRuntime) -> Result<(), Fail> {
    let mut row = 0;
    for a in 0..2 {
        for b in 0..6 {
            for c in 0..10 {
                let tree = grow_three(rt.alloc(), a, b, c)?;
                let text = word(rt.alloc(), &tree)?;
                assert!(rt; row <= 833);
                assert_eq!(rt; text.as_slice(), &GROWN[row..row + 7]);
                let choices = ungrow(rt.alloc(), &tree)?;
                assert_eq!(rt; choices.as_slice(), [a, b, c].as_slice());
                row += 7;
            }
        }
    }
    assert_eq!(rt; row, 840);
    Ok(())
}

#[test]
fn shape_and_labels(rt: HostRuntime) -> Result<(), Fail> {
    let nodes = [true, true, false, false, false];
    let tree = tree_of_shape(rt.alloc(), &nodes, &[0, 2, 1])?;
    assert_eq!(rt; word(rt.alloc(), &tree)?.as_slice(), b"ff021".as_slice());
    assert_eq!(rt; ungrow(rt.alloc(), &tree)?.as_slice(), [0, 0].as_slice());
    Ok(())
}

#[test]
fn new_labels(rt: HostRuntime) -> Result<(), Fail> {
    let tree = tree_of_shape(rt.alloc(), &[true, false, false], &[0, 1])?;
    let other = relabel(rt.alloc(), &tree, &[1, 0])?;
    assert_eq!(rt; word(rt.alloc(), &other)?.as_slice(), b"f10".as_slice());
    Ok(())
}

fn path(alloc: Global, len: u64) -> Result<Vec<u64>, AllocError>
    requires { len ≤ 1000000 }
    ensures valid { IfOk result (λ v. IsChoices v.items) }
    ensures len { IfOk result (λ v. length v.items ≡ len) }
{
    let mut choices = Vec::new(alloc);
    for k in 0..len {
        choices.push(4 * k)?;
    }
    Ok(choices)
}

// A tree as deep as it has forks.
#[test]
fn a_million_choices_on_one_path(rt: HostRuntime) -> Result<(), Fail> {
    let choices = path(rt.alloc(), 1000000)?;
    let tree = grow(rt.alloc(), &choices)?;
    let found = labels(rt.alloc(), &tree)?;
    assert_eq!(rt; found.len(), 1000001);
    let back = ungrow(rt.alloc(), &tree)?;
    assert!(rt; back.as_slice() == choices.as_slice());
    Ok(())
}
