ghost use Rattle.std.specs.Prelude.{◌≡◌, ℕ, suc, ◌-◌, ◌*◌, ◌<◌, ◌≤◌, ◌^◌, min, max, length, slice_set, OnOk};
ghost use Rattle.pm_remy.specs.Growth.{IsChoices, IsGrowth};
ghost use Rattle.pm_remy.specs.steps.Noted.{root_upto, fork_choice, IsNotedTree};
ghost use Rattle.pm_remy.specs.Tree.{Tree};
ghost use Rattle.pm_remy.specs.Words.{IsWritten, tree_of};

use std::alloc::{AllocError, Global};

/// A subtree, by the name of its root node and its least label.
#[derive(Clone, Copy)]
struct Subtree {
    root: u32,
    least: u32,
}

/// The name of the subtree's root node once the labels above `label` are taken away. From a fork that came with such a
/// label the search goes on at the node beside which that label was put.
fn root_before(choices: &[u64], subtree: Subtree, label: u32) -> u64
    requires valid { IsChoices choices.now }
    requires root_in { subtree.root ≤ 2 * length choices.now }
    requires least_low { subtree.least ≤ label }
    requires noted { (t : Tree) × IsNotedTree choices.now subtree.root subtree.least t }
    ensures low { result ≤ subtree.root }
    ensures root { (t : Tree) → IsNotedTree choices.now subtree.root subtree.least t → result ≡ root_upto label t }
{
    let mut node = u64::from(subtree.root);
    'nodes: while node > 2 * u64::from(label) {
        node = choices[(node / 2) as usize] / 2;
    }
    node
}

/// Notes the choice of the fork of two subtrees.
fn note_fork(choices: &mut [u64], left: Subtree, right: Subtree) -> Subtree
    requires valid { IsChoices choices.old }
    requires left_in { left.root ≤ 2 * length choices.old }
    requires right_in { right.root ≤ 2 * length choices.old }
    requires positive { 0 < max left.least right.least }
    requires label_in { max left.least right.least ≤ length choices.old }
    requires label_fits { 2 * max left.least right.least < 2 ^ 32 }
    requires left_noted { (t : Tree) × IsNotedTree choices.old left.root left.least t }
    requires right_noted { (t : Tree) × IsNotedTree choices.old right.root right.least t }
    ensures root { result.root ≡ 2 * max left.least right.least - 1 }
    ensures least { result.least ≡ min left.least right.least }
    ensures choices { (l r : Tree) → IsNotedTree choices.old left.root left.least l → IsNotedTree choices.old right.root right.least r → choices.new ≡ slice_set choices.old (max left.least right.least - 1) (fork_choice l r) }
{
    let fork = Subtree {
        root: 2 * left.least.max(right.least) - 1,
        least: left.least.min(right.least),
    };
    if left.least < right.least {
        let node = root_before(choices, left, right.least);
        choices[right.least as usize - 1] = 2 * node;
    } else {
        let node = root_before(choices, right, left.least);
        choices[left.least as usize - 1] = 2 * node + 1;
    }
    fork
}

/// The subtree that is a leaf.
fn leaf(label: u32) -> Subtree
    requires { 2 * label < 2 ^ 32 }
    ensures root { result.root ≡ 2 * label }
    ensures least { result.least ≡ label }
{
    Subtree {
        root: 2 * label,
        least: label,
    }
}

/// Reads the choices that grow the tree of the nodes in preorder and the labels from left to right. It reads both from
/// the right: each fork comes after its two sides, which are the last two subtrees read.
pub(crate) fn read_choices(
    alloc: Global,
    nodes: &[bool],
    labels: &[u32],
    choices: &mut [u64],
) -> Result<(), AllocError>
    requires written { IsWritten nodes.now labels.now }
    requires choices_long { suc (length choices.old) ≡ length labels.now }
    requires valid { IsChoices choices.old }
    ensures { OnOk result (IsGrowth choices.new (tree_of nodes.now labels.now)) }
{
    let mut subtrees = Vec::new(alloc);
    let mut labels_left = labels.len();
    let mut nodes_left = nodes.len();
    'nodes: while nodes_left > 0 {
        nodes_left -= 1;
        if nodes[nodes_left] {
            let left = subtrees.pop().unwrap();
            let right = subtrees.pop().unwrap();
            let fork = note_fork(choices, left, right);
            subtrees.push(fork)?;
        } else {
            labels_left -= 1;
            let end = leaf(labels[labels_left]);
            subtrees.push(end)?;
        }
    }
    Ok(())
}
