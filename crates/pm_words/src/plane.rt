//! Plane trees, made from good words and read as words.
ghost use Rattle.std.specs.Prelude.{◌≡◌, ◌^◌, ◌<◌, length, IfOk};
ghost use Rattle.pm_words.specs.Word.{IsWord, IsGood};
ghost use Rattle.pm_words.specs.Plane.{word_of, TreesAreWords};

use std::alloc::{AllocError, Global};
use std::marker::Model;

/// A plane tree: a node with a list of children, each of them a plane tree. It has fewer than 2^32 nodes, and each
/// node has at most 2^31 children. It is kept as its word, so making, reading and dropping it take no depth.
#[derive(Drop)]
pub struct PlaneTree {
    letters: Vec<i32>,
}

impl Model for PlaneTree {
    ghost use Rattle.pm_words.specs.Plane.{Trees, trees_of, subtrees_of, IsTreeWord};
    ghost use Rattle.pm_words.specs.PlaneCode.{trees_code};

    ghost Value = { Trees };

    ghost coded = { trees_code };

    ghost view = { λ t. subtrees_of (trees_of t.letters.items) };

    ghost invariant = { λ t. IsTreeWord t.letters.items };
}

/// The plane tree whose preorder the word is: letter k is the number of children of the k-th node, less one. The
/// word is good for 1, and has fewer than 2^32 letters.
///
/// # Errors
///
/// `AllocError` where memory runs out.
pub fn tree_of_word(alloc: Global, word: &[i32]) -> Result<PlaneTree, AllocError>
    requires few { length word.now < 2 ^ 32 }
    requires letters { IsWord word.now }
    requires good { IsGood 1 word.now }
    ensures { IfOk result (λ t. word_of t ≡ word.now) }
{
    let letters = Vec::from_slice(alloc, word)?;
    Ok(PlaneTree { letters })
}

/// The word of the tree: for each node in preorder the number of its children, less one.
///
/// # Errors
///
/// `AllocError` where memory runs out.
pub fn word_of_tree(alloc: Global, tree: &PlaneTree) -> Result<Vec<i32>, AllocError>
    ensures word { IfOk result (λ v. v.items ≡ word_of tree.now) }
    ensures few { length (word_of tree.now) < 2 ^ 32 }
{
    Vec::from_slice(alloc, &tree.letters)
}

/// The law of plane trees and their words: a tree's word is good for 1, no other tree has it, and each word that is
/// good for 1 is that of a tree.
pub fn trees_are_words()
    ensures { TreesAreWords }
{}
