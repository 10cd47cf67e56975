//! Stem trees as bits.
ghost use Rattle.std.specs.Prelude.{◌≡◌, IfOk};
ghost use Rattle.pm_tri.specs.Bits.{AreTreeBits, IsTreeOfBits, bits_of};

use crate::letters::STEM;
use crate::tree::TriTree;
use pm_brackets::{CLOSE, OPEN};
use std::alloc::{AllocError, Global};

/// The stem tree with these bits, in time linear in them. A one opens a node; in each node but the root node the first two
/// zeros are its stems and the third ends it; in the root node the first zero is its stem, and the second ends the word.
///
/// A one weighs 3 and a zero -1: the bits are those of a stem tree exactly where their sum is -2 and is first reached at the
/// last bit.
///
/// # Errors
///
/// Only where there is no memory left.
pub fn tri_tree_of_bits(alloc: Global, bits: &[bool]) -> Result<TriTree, AllocError>
    requires { AreTreeBits bits.now }
    ensures { IfOk result (λ tree. bits_of tree ≡ bits.now) }
{
    let letters = letters_of(alloc, bits)?;
    Ok(TriTree { letters })
}

/// The bits of a stem tree: of each letter of its word whether it is a `(`, and a last zero. A tree with `n` nodes has
/// `4n - 2` bits, of which `n - 1` are ones.
///
/// # Errors
///
/// Only where there is no memory left.
pub fn bits_of_tri_tree(alloc: Global, tree: &TriTree) -> Result<Vec<bool>, AllocError>
    ensures bits { IfOk result (λ bits. bits.items ≡ bits_of tree.now) }
    ensures valid { IfOk result (λ bits. AreTreeBits bits.items) }
{
    let word = tree.letters();
    let mut bits = Vec::with_capacity(alloc, word.len() + 1)?;
    for letter in word {
        bits.push(*letter == OPEN)?;
    }
    bits.push(false)?;
    Ok(bits)
}

/// The letters that the bits tell. A zero is a stem where its node has fewer than two stems, the plant counted, and ends the
/// node where it has two.
fn letters_of(alloc: Global, bits: &[bool]) -> Result<Vec<u8>, AllocError>
    requires { AreTreeBits bits.now }
    ensures { IfOk result (λ letters. IsTreeOfBits letters.items bits.now) }
{
    let mut letters = Vec::with_capacity(alloc, bits.len() - 1)?;
    // The stems so far of the nodes that are open, the innermost one aside: the plant is one of the root node.
    let mut parents: Vec<u8> = Vec::new(alloc);
    let mut stems: u8 = 1;
    'bits: for one in &bits[..bits.len() - 1] {
        if *one {
            parents.push(stems)?;
            stems = 0;
            letters.push(OPEN)?;
        } else if stems < 2 {
            stems += 1;
            letters.push(STEM)?;
        } else {
            stems = parents.pop().unwrap();
            letters.push(CLOSE)?;
        }
    }
    Ok(letters)
}
