ghost use Rattle.std.specs.Prelude.{◌≡◌, ℕ, suc, ◌+◌, ◌-◌, ◌^◌, ◌<◌, ◌≤◌, List, length, slice_index, vec_len, OnOk, IfOk};
ghost use Rattle.std.specs.Bool.{OnTrue, OnFalse};
ghost use Rattle.pm_trees.specs.declared.letters.TheConstants.{LEAF as leaf, BUD as bud};
ghost use Rattle.pm_brackets.specs.Word.{count};
ghost use Rattle.pm_trees.specs.Word.{contour};
ghost use Rattle.pm_match.specs.Pairing.{IsPairing};
ghost use Rattle.pm_match.specs.steps.Waiting.{Opens, Meets, Passes, top_of};

use pm_trees::{BUD, LEAF, Tree, letter_at};
use std::alloc::{AllocError, Global};
use std::marker::Model;

/// The pairs of a bud and a leaf in a tree, and its two free leaves. All are places of the contour: the plant is place 0, and
/// the k-th letter of the word, from 1, is place k.
#[derive(Drop)]
pub struct Pairing {
    pairs: Vec<(u32, u32)>,
    first_free: u32,
    second_free: u32,
}

impl Model for Pairing {
    ghost use Rattle.pm_match.specs.Pairing.{Pairs};

    ghost Value = { Pairs };

    ghost view = { λ found. record {
      pairs = found.pairs.items;
      first_free = found.first_free;
      second_free = found.second_free;
    } };
}

impl Pairing {
    /// Each bud's place and its leaf's place, in rising order of the bud.
    pub fn pairs(&self) -> &[(u32, u32)]
        ensures { result.now ≡ self.now.pairs }
    {
        &self.pairs
    }

    /// The places of the two free leaves, in rising order.
    pub fn free(&self) -> (u32, u32)
        ensures { result ≡ (self.now.first_free, self.now.second_free) }
    {
        (self.first_free, self.second_free)
    }
}

// Lists a pair of the bud at this place, which waits for its leaf.
fn open(pairs: &mut Vec<(u32, u32)>, waiting: &mut Vec<u32>, place: u32) -> Result<(), AllocError>
    requires { vec_len pairs.old < 2 ^ 32 }
    ensures { OnOk result
        (Opens pairs.old.items pairs.new.items waiting.old.items waiting.new.items place) }
{
    waiting.push(pairs.len() as u32)?;
    pairs.push((place, 0))?;
    Ok(())
}

// Gives the last pair that waits the leaf at this place, and says whether one waited.
fn meet(pairs: &mut Vec<(u32, u32)>, waiting: &mut Vec<u32>, place: u32) -> bool
    requires { 0 < length waiting.old.items → top_of waiting.old.items < vec_len pairs.old }
    ensures met { OnTrue result
        (Meets pairs.old.items pairs.new.items waiting.old.items waiting.new.items place) }
    ensures passed { OnFalse result
        (Passes pairs.old.items pairs.new.items waiting.old.items waiting.new.items) }
{
    match waiting.pop() {
        Some(index) => {
            let (bud, _) = pairs[index as usize];
            pairs[index as usize] = (bud, place);
            true
        }
        None => false,
    }
}

// The pairs of a word with two more leaves than buds, the plant counted. The first turn along the contour pairs what meets
// within it. In the second, a leaf that no bud of that turn waits for goes to the last bud of the first that still waits,
// or is free.
fn match_letters(alloc: Global, letters: &[u8]) -> Result<Pairing, AllocError>
    requires short { suc (length letters.now) < 2 ^ 32 }
    requires surplus { count leaf (contour letters.now) ≡ count bud (contour letters.now) + 2 }
    ensures { IfOk result (λ found. IsPairing (contour letters.now) found) }
{
    let places = letters.len() as u32 + 1;
    let mut pairs = Vec::with_capacity(alloc, letters.len() / 2)?;
    let mut waiting = Vec::new(alloc);
    'first: for place in 0..places {
        match letter_at(letters, place) {
            BUD => open(&mut pairs, &mut waiting, place)?,
            LEAF => {
                meet(&mut pairs, &mut waiting, place);
            }
            _ => {}
        }
    }
    let mut free = Vec::new(alloc);
    let mut inner: u32 = 0;
    'second: for place in 0..places {
        match letter_at(letters, place) {
            BUD => inner += 1,
            LEAF if inner > 0 => inner -= 1,
            LEAF => {
                if !meet(&mut pairs, &mut waiting, place) {
                    free.push(place)?;
                }
            }
            _ => {}
        }
    }
    Ok(Pairing {
        pairs,
        first_free: free[0],
        second_free: free[1],
    })
}

/// All pairs of a bud and a leaf in the tree, and its two free leaves. It takes time and memory linear in the tree.
pub fn matching(alloc: Global, tree: &Tree) -> Result<Pairing, AllocError>
    ensures { IfOk result (λ found. IsPairing (contour tree.now) found) }
{
    match_letters(alloc, tree.letters())
}
