//! Reading: a blossoming tree is a plane tree with a bud pattern at each node.
ghost use Rattle.std.specs.Prelude.{◌≡◌, IfOk, OnOk, reverse};
ghost use Rattle.pm_planting.specs.steps.Folded.{prefix_of, behind};
ghost use Rattle.pm_planting.specs.Kinds.{HasKind, IsKind, IsWordOfKinds};

use crate::kind::Kind;
use pm_brackets::{CLOSE, OPEN};
use pm_trees::{LEAF, SLOT, Tree, rank};
use std::alloc::{AllocError, Global};

/// The kinds of the tree's objects in preorder. The letters are read from the last one on. The entries that are read are
/// kept, with a closing bracket before those of each node whose opening bracket isn't read yet.
pub fn kinds_of_tree(alloc: Global, tree: &Tree) -> Result<Vec<Kind>, AllocError>
    ensures { IfOk result (λ kinds. IsWordOfKinds kinds.items tree.now) }
{
    let letters = tree.letters();
    let mut entries = Vec::new(alloc);
    let mut pattern = Vec::new(alloc);
    let mut kinds = Vec::with_capacity(alloc, letters.len() / 2 + 2)?;
    'back: for place in (0..letters.len()).rev() {
        let letter = letters[place];
        if letter == OPEN {
            kinds.push(end_node(&mut entries, &mut pattern)?)?;
            entries.push(SLOT)?;
        } else if letter == LEAF {
            kinds.push(Kind::Leaf)?;
            entries.push(SLOT)?;
        } else {
            entries.push(letter)?;
        }
    }
    kinds.push(end_node(&mut entries, &mut pattern)?)?;
    kinds.reverse();
    Ok(kinds)
}

/// Takes off the entries of the last node, which are in the list for its pattern then, and tells its kind.
fn end_node(entries: &mut Vec<u8>, pattern: &mut Vec<u8>) -> Result<Kind, AllocError>
    requires { (kind : Kind) × IsKind kind × HasKind kind (prefix_of (reverse entries.old.items)) }
    ensures kind { IfOk result (λ kind. HasKind kind (prefix_of (reverse entries.old.items))) }
    ensures rest { OnOk result (reverse entries.new.items ≡ behind (reverse entries.old.items)) }
{
    take_entries(entries, pattern)?;
    let half = (pattern.len() as u32 + 1) / 2;
    let rank = rank(pattern);
    Ok(Kind::Node { half, rank })
}

/// Takes off the last entries up to a closing bracket, and the bracket. The prefix has them alone then.
fn take_entries(entries: &mut Vec<u8>, prefix: &mut Vec<u8>) -> Result<(), AllocError>
    ensures prefix { OnOk result (prefix.new.items ≡ prefix_of (reverse entries.old.items)) }
    ensures rest { OnOk result (reverse entries.new.items ≡ behind (reverse entries.old.items)) }
{
    prefix.clear();
    'entries: while let Some(entry) = entries.pop() {
        if entry == CLOSE {
            return Ok(());
        }
        prefix.push(entry)?;
    }
    Ok(())
}
