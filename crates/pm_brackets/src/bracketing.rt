//! The other bracket of each bracket of a word.
ghost use Rattle.std.specs.Prelude.{◌<◌, ◌^◌, ◌∷◌, ℕ, IfOk, length};
ghost use Rattle.pm_brackets.specs.Word.{IsBracketing, IsMatched, IsOther};

use crate::letters::{CLOSE, OPEN};
use std::alloc::{AllocError, Global};

/// For each place of a word whose brackets match, from its plant on, the other bracket of a bracket, and the place itself of
/// another letter. So it is whichever letter the plant is.
///
/// # Errors
///
/// Only where there is no memory left.
pub fn other_brackets(alloc: Global, word: &[u8]) -> Result<Vec<u32>, AllocError>
    requires matched { IsMatched word.now }
    requires small { length word.now < 2 ^ 32 }
    ensures { IfOk result (λ other. (plant : ℕ) → IsOther plant → IsBracketing (plant ∷ word.now) other.items) }
{
    let mut other = vec![in alloc; 0u32; word.len() + 1]?;
    let mut open: Vec<u32> = Vec::new(alloc);
    'letters: for (i, letter) in word.iter().enumerate() {
        let place = i as u32 + 1;
        if *letter == CLOSE {
            let opener = open.pop().unwrap();
            other[opener as usize] = place;
            other[place as usize] = opener;
        } else {
            if *letter == OPEN {
                open.push(place)?;
            }
            other[place as usize] = place;
        }
    }
    Ok(other)
}
