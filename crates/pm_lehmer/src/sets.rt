//! Sets of numbers below 64 times a power of two: a word for each 64 numbers, in which a bit tells whether its number is
//! in the set, and over the words a tree of counts.
ghost use Rattle.std.specs.Prelude.{◌≡◌, ℕ, ◌+◌, ◌*◌, ◌^◌, ◌<◌, ◌≤◌, min, length, slice_index, EachIndex, IfSome};
ghost use Rattle.std.specs.Int.{IsPowerOfTwo};
ghost use Rattle.pm_lehmer.specs.steps.Counted.{IsMore};
ghost use Rattle.pm_lehmer.specs.steps.Held.{IsHeld, HasRank};

use crate::bits::{bit_of_rank, first_ones, ones_below};
use crate::counts::{list_length, put, take};

/// How many words a set of numbers below the size has.
pub(crate) fn words_for(size: usize) -> usize
    requires { size < 2 ^ 32 }
    ensures power { IsPowerOfTwo result }
    ensures enough { size ≤ 64 * result }
    ensures few { result ≤ 2 ^ 32 }
{
    list_length(size.div_ceil(64))
}

/// Puts each number below the size into a set that has none.
pub(crate) fn fill(words: &mut [u64], counts: &mut [u32], size: usize)
    requires as_long { length words.old ≡ length counts.old }
    requires power { IsPowerOfTwo (length counts.old) }
    requires few { length counts.old ≤ 2 ^ 32 }
    requires size { size < 2 ^ 32 }
    requires enough { size ≤ 64 * length words.old }
    requires no_bits { EachIndex words.old (λ place. slice_index words.old place ≡ 0) }
    requires none_counted { EachIndex counts.old (λ place. slice_index counts.old place ≡ 0) }

    ensures { IsHeld words.new counts.new (λ number. min number size) }
{
    'words: for word in 0..words.len() {
        let many = size.saturating_sub(64 * word).min(64) as u32;
        words[word] = first_ones(many);
        put(counts, word, many);
    }
}

/// Puts a number in, and says how many smaller ones there were, unless it is there already.
pub(crate) fn insert(words: &mut [u64], counts: &mut [u32], number: usize) -> Option<usize>
    requires as_long { length words.old ≡ length counts.old }
    requires power { IsPowerOfTwo (length counts.old) }
    requires few { length counts.old ≤ 2 ^ 32 }
    requires inside { number < 64 * length words.old }
    requires room { (place : ℕ) → 0 < place → place < length counts.old → slice_index counts.old place + 1 < 2 ^ 32 }

    ensures smaller { IfSome result (λ smaller. (below : ℕ → ℕ) → IsHeld words.old counts.old below → smaller + below 0 ≡ below number) }
    ensures held { IfSome result (λ smaller. (below more : ℕ → ℕ) → IsHeld words.old counts.old below → IsMore number 1 below more → IsHeld words.new counts.new more) }
{
    let word = number / 64;
    let bit = (number % 64) as u32;
    let before = words[word];
    if (before >> bit) & 1 == 1 {
        return None;
    }
    words[word] = before | 1 << bit;
    Some(put(counts, word, 1) + ones_below(before, bit) as usize)
}

/// Takes the number out that has `rank` smaller ones beside it, and gives it.
pub(crate) fn remove(words: &mut [u64], counts: &mut [u32], rank: usize) -> usize
    requires as_long { length words.old ≡ length counts.old }
    requires power { IsPowerOfTwo (length counts.old) }
    requires few { length counts.old ≤ 2 ^ 32 }
    requires low { rank < 2 ^ 32 }
    requires ranked { HasRank words.old counts.old rank }

    ensures inside { result < 64 * length words.old }
    ensures ranked { (below : ℕ → ℕ) → IsHeld words.old counts.old below → below 0 ≡ 0 → (below result ≤ rank) × (rank < below (result + 1)) }
    ensures held { (fewer more : ℕ → ℕ) → IsHeld words.old counts.old more → IsMore result 1 fewer more → IsHeld words.new counts.new fewer }
{
    let (word, left) = take(counts, rank);
    let bit = bit_of_rank(words[word], left);
    words[word] &= !(1 << bit);
    64 * word + bit as usize
}
