//! Turning: the ring of a word on a plant, read from another of its places on.
ghost use Rattle.std.specs.Prelude.{◌≡◌, ◌*◌, ◌-◌, ◌<◌, ◌≤◌, ◌^◌, ◌∷◌, ◌++◌, IfOk, length, slice_index, take, drop};
ghost use Rattle.pm_brackets.specs.Ring.{IsTurned};
ghost use Rattle.pm_brackets.specs.Word.{IsMatched, IsOther};

use crate::letters::{CLOSE, OPEN};
use std::alloc::{AllocError, Global};

/// The letters that are met behind the place `start`, once around the ring of a word on a plant, where the plant's letter
/// stands at `start` too: so they are a word on the same plant. Other letters stay; of the two brackets of an edge the one
/// that is met first becomes the `(`, and the other one the `)`.
///
/// Behind `start` those `)` are turned that close a bracket from before it, which are the record lows of the level; before
/// `start` those `(` are turned that are closed behind it, which are the lows read backwards.
///
/// # Errors
///
/// Only where there is no memory left.
pub fn turned(alloc: Global, plant: u8, word: &[u8], start: u32) -> Result<Vec<u8>, AllocError>
    requires plant { IsOther plant }
    requires matched { IsMatched word.now }
    requires small { length word.now < 2 ^ 30 }
    requires within { start ≤ length word.now }
    requires start { slice_index (plant ∷ word.now) start ≡ plant }
    ensures { IfOk result (λ letters. IsTurned (plant ∷ word.now) start (plant ∷ letters.items)) }
{
    if start == 0 {
        return Vec::from_slice(alloc, word);
    }
    let first = start as usize;
    let mut letters = read_from(alloc, plant, word, first)?;
    let mut above: usize = 0;
    'behind: for place in first..word.len() {
        match word[place] {
            OPEN => above += 1,
            CLOSE if above > 0 => above -= 1,
            CLOSE => letters[place - first] = OPEN,
            _ => {}
        }
    }
    above = 0;
    let old_plant = word.len() - first;
    'back: for place in (0..first - 1).rev() {
        match word[place] {
            CLOSE => above += 1,
            OPEN if above > 0 => above -= 1,
            OPEN => letters[old_plant + 1 + place] = CLOSE,
            _ => {}
        }
    }
    Ok(letters)
}

/// The letters that are met behind the place `start`, once around the ring of a word on a plant, as they stand.
fn read_from(alloc: Global, plant: u8, word: &[u8], start: usize) -> Result<Vec<u8>, AllocError>
    requires some { 0 < start }
    requires within { start ≤ length word.now }
    ensures { IfOk result (λ letters. letters.items ≡ drop start word.now ++ plant ∷ take (start - 1) word.now) }
{
    let mut letters = Vec::with_capacity(alloc, word.len())?;
    letters.extend_from_slice(&word[start..])?;
    letters.push(plant)?;
    letters.extend_from_slice(&word[..start - 1])?;
    Ok(letters)
}
