//! What can be wrong with the text of a word.
ghost use Rattle.std.specs.Prelude.{◌≡◌, ◌<◌, ◌^◌, All, IfOk, IsTrue, MatchOption, length};
ghost use Rattle.pm_brackets.specs.First.{IsFirst};
ghost use Rattle.pm_brackets.specs.Word.{IsFirstFault, IsMatched, IsWordOf, is_letter_of};
ghost use Rattle.pm_brackets.specs.steps.Faults.{IsFirstUnmatched, IsForeign};

use crate::letters::{CLOSE, OPEN};
use crate::noting::lesser;
use std::alloc::{AllocError, Global};

/// Whether the byte is a bracket or one of the others.
fn is_letter(others: &[u8], letter: u8) -> bool
    ensures { result ≡ is_letter_of others.now letter }
{
    letter == OPEN || letter == CLOSE || others.contains(&letter)
}

/// The place of the first byte that is no bracket and none of the others.
fn first_foreign(word: &[u8], others: &[u8]) -> Option<u32>
    requires { length word.now < 2 ^ 32 }
    ensures { MatchOption result (All (λ x. IsTrue (is_letter_of others.now x)) word.now) (IsFirst (IsForeign others.now word.now)) }
{
    'letters: for (i, letter) in word.iter().enumerate() {
        if !is_letter(others, *letter) {
            return Some(i as u32 + 1);
        }
    }
    None
}

/// The place of the first `)` that closes nothing, or else of the last `(` that isn't closed.
fn first_unmatched(alloc: Global, word: &[u8]) -> Result<Option<u32>, AllocError>
    requires { length word.now < 2 ^ 32 }
    ensures { IfOk result (λ found. MatchOption found (IsMatched word.now) (IsFirstUnmatched word.now)) }
{
    let mut open: Vec<u32> = Vec::new(alloc);
    'letters: for (i, letter) in word.iter().enumerate() {
        let place = i as u32 + 1;
        if *letter == OPEN {
            open.push(place)?;
        } else if *letter == CLOSE {
            if open.pop().is_none() {
                return Ok(Some(place));
            }
        }
    }
    Ok(open.pop())
}

/// The place of the first fault of the text of a word of brackets and these other letters, counted from 1; none where the
/// text is in order. A fault is another letter, a `)` that closes nothing, or the last `(` that isn't closed.
///
/// # Errors
///
/// Only where there is no memory left.
pub fn first_fault(alloc: Global, word: &[u8], others: &[u8]) -> Result<Option<u32>, AllocError>
    requires { length word.now < 2 ^ 32 }
    ensures { IfOk result (λ found. MatchOption found (IsWordOf others.now word.now) (IsFirstFault others.now word.now)) }
{
    let unmatched = first_unmatched(alloc, word)?;
    Ok(lesser(first_foreign(word, others), unmatched))
}
