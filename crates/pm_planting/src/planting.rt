//! Planting: a plane tree with a bud pattern at each node is a blossoming tree.
ghost use Rattle.std.specs.Prelude.{◌≡◌, ℕ, suc, ◌+◌, ◌-◌, ◌*◌, ◌<◌, ◌≤◌, ◌++◌, List, All, IfOk, OnOk, length, reverse, vec_len, if◌then◌else◌};
ghost use Rattle.pm_limits.specs.declared.TheConstants.{MAX_EDGES};
ghost use Rattle.pm_trees.specs.Binomial.{choose};
ghost use Rattle.pm_trees.specs.BudPattern.{HasRank, IsHalfDegree};
ghost use Rattle.pm_words.specs.Word.{IsGood};
ghost use Rattle.pm_planting.specs.Kinds.{IsKind, IsWordOfKinds, letters_in};

use crate::kind::Kind;
use pm_brackets::{CLOSE, OPEN};
use pm_limits::MAX_DEGREE;
use pm_trees::{BUD, LEAF, SLOT, Tree, pattern};
use std::alloc::{AllocError, Global};

/// The blossoming tree whose objects in preorder are of these kinds, planted above the first: a node has the bud pattern of
/// its rank, with its children in the pattern's slots from left to right.
///
/// # Errors
///
/// Only where there is no memory left.
pub fn plant_plane(alloc: Global, kinds: &[Kind]) -> Result<Tree, AllocError>
    requires each { All IsKind kinds.now }
    requires some { 1 < length kinds.now }
    requires few { length kinds.now ≤ suc MAX_EDGES }
    requires good { IsGood 1 (letters_in kinds.now) }
    ensures { IfOk result (λ word. IsWordOfKinds kinds.now word) }
{
    let letters = planted_letters(alloc, kinds)?;
    Ok(Tree::of_word(letters))
}

/// The letters of that tree's word. What is still to be written lies ahead with the next letter last, and a slot there
/// stands for the tree of the next objects in preorder.
fn planted_letters(alloc: Global, kinds: &[Kind]) -> Result<Vec<u8>, AllocError>
    requires each { All IsKind kinds.now }
    requires some { 1 < length kinds.now }
    requires good { IsGood 1 (letters_in kinds.now) }
    ensures { IfOk result (λ letters. IsWordOfKinds kinds.now letters.items) }
{
    let mut letters = Vec::with_capacity(alloc, 2 * kinds.len())?;
    let mut ahead = Vec::new(alloc);
    match kinds[0] {
        Kind::Node { half, rank } => add_pattern(rank, half, &mut ahead)?,
        Kind::Leaf => unreachable!(),
    }
    let mut next = 1;
    'letters: while let Some(letter) = ahead.pop() {
        if letter != SLOT {
            letters.push(letter)?;
            continue 'letters;
        }
        let kind = kinds[next];
        next += 1;
        let Kind::Node { half, rank } = kind else {
            letters.push(LEAF)?;
            continue 'letters;
        };
        letters.push(OPEN)?;
        ahead.push(CLOSE)?;
        add_pattern(rank, half, &mut ahead)?;
    }
    Ok(letters)
}

/// Puts the bud pattern of this rank of a node of this half degree before what lies ahead.
fn add_pattern(rank: u64, half: u32, ahead: &mut Vec<u8>) -> Result<(), AllocError>
    requires half { IsHalfDegree half }
    requires rank { rank < choose (2 * half - 1) half }
    ensures pattern { OnOk result ((word : List ℕ) × HasRank half word rank × (ahead.new.items ≡ ahead.old.items ++ reverse word)) }
    ensures len { OnOk result (vec_len ahead.new + 1 ≡ vec_len ahead.old + 2 * half) }
{
    if half == 2 {
        return add_one_bud(rank, ahead);
    }
    let mut letters = [0; MAX_DEGREE as usize - 1];
    let entries = &mut letters[..2 * half as usize - 1];
    pattern(rank, half, entries);
    entries.reverse();
    ahead.extend_from_slice(entries)?;
    Ok(())
}

/// The same for a node of degree 4, whose one bud is at the entry of the rank.
fn add_one_bud(rank: u64, ahead: &mut Vec<u8>) -> Result<(), AllocError>
    requires { rank < choose 3 2 }
    ensures pattern { OnOk result ((word : List ℕ) × HasRank 2 word rank × (ahead.new.items ≡ ahead.old.items ++ reverse word)) }
    ensures len { OnOk result (vec_len ahead.new ≡ vec_len ahead.old + 3) }
{
    ahead.push(entry(rank == 2))?;
    ahead.push(entry(rank == 1))?;
    ahead.push(entry(rank == 0))?;
    Ok(())
}

/// A bud, or else a slot.
fn entry(is_bud: bool) -> u8
    ensures { result ≡ (if is_bud then BUD else SLOT) }
{
    if is_bud { BUD } else { SLOT }
}
