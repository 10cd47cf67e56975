//! Good starts of a cyclic word, and the turn to one.
ghost use Rattle.std.specs.Prelude.{◌≡◌, ℕ, ◌+◌, ◌%◌, ◌^◌, ◌<◌, pos, neg_ℤ, length, slice_index, IfOk};
ghost use Rattle.pm_words.specs.Word.{IsWord, IsGoodStarts, IsLowest, sum_of, turned};

use std::alloc::{AllocError, Global};

/// The places from which the word, read cyclically, first sums to `-goal` at its last letter, in rising order. There
/// are exactly `goal` of them. The letters are at least -1 and sum to `-goal`, and there are fewer than 2^32.
///
/// # Errors
///
/// `AllocError` where memory runs out.
pub fn good_starts(alloc: Global, word: &[i32], goal: u32) -> Result<Vec<u32>, AllocError>
    requires few { length word.now < 2 ^ 32 }
    requires letters { IsWord word.now }
    requires goal { 0 < goal }
    requires sum { sum_of word.now ≡ neg_ℤ (pos goal) }
    ensures { IfOk result (λ v. IsGoodStarts goal word.now v.items) }
{
    let bound = lowest_prefix(word) + i64::from(goal);
    let mut starts = Vec::new(alloc);
    let mut sum: i64 = 0;
    let mut least: i64 = 1;
    'prefixes: for (start, letter) in word.iter().enumerate() {
        if sum < least {
            least = sum;
            if sum < bound {
                starts.push(start as u32)?;
            }
        }
        sum += i64::from(*letter);
    }
    Ok(starts)
}

// The least sum of a prefix of the word that leaves a letter out.
fn lowest_prefix(word: &[i32]) -> i64
    requires few { length word.now < 2 ^ 32 }
    requires letters { IsWord word.now }
    requires filled { 0 < length word.now }
    ensures { IsLowest word.now result }
{
    let mut lowest: i64 = 0;
    let mut sum: i64 = 0;
    'prefixes: for letter in word {
        if sum < lowest {
            lowest = sum;
        }
        sum += i64::from(*letter);
    }
    lowest
}

/// The entries, read cyclically from `start` on.
///
/// # Errors
///
/// `AllocError` where memory runs out.
pub fn rotate(alloc: Global, entries: &[u32], start: u32) -> Result<Vec<u32>, AllocError>
    requires { start < length entries.now }

    ensures turned { IfOk result (λ v. v.items ≡ turned start entries.now) }
    ensures length { IfOk result (λ v. length v.items ≡ length entries.now) }
    ensures at { IfOk result (λ v. (place : ℕ) → place < length entries.now → slice_index v.items place ≡ slice_index entries.now ((start + place) % length entries.now)) }
{
    let start = start as usize;
    let mut rotated = Vec::from_slice(alloc, &entries[start..])?;
    rotated.extend_from_slice(&entries[..start])?;
    Ok(rotated)
}
