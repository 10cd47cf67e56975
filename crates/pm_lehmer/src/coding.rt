//! From a list to its code.
ghost use Rattle.std.specs.Prelude.{◌≡◌, ◌↔◌, ℕ, ◌+◌, ◌*◌, ◌^◌, ◌<◌, ◌≤◌, length, slice_index, EachIndex, IfOk, IsTrue};
ghost use Rattle.std.specs.Int.{IsPowerOfTwo};
ghost use Rattle.std.specs.List.{All};
ghost use Rattle.std.specs.List.Sorted.{IsNonDecreasing};
ghost use Rattle.pm_lehmer.specs.Lehmer.{count_below, ranks_among, code_of, IsArrangementCode};

use crate::counts::{list_length, put};
use crate::sets::{insert, words_for};
use std::alloc::{AllocError, Global};

/// The code of the entries: entry k counts the later entries that are smaller than entry k. There are fewer than
/// 2^32 entries. No list is sorted where the entries lie in a range no longer than they are many, as in a permutation.
/// Where an entry comes twice, the counts are of single numbers and not of words, which takes longer.
///
/// # Errors
///
/// `AllocError` where memory runs out.
pub fn code(alloc: Global, entries: &[u32]) -> Result<Vec<u64>, AllocError>
    requires { length entries.now < 2 ^ 32 }

    ensures code { IfOk result (λ v. v.items ≡ code_of entries.now) }
    ensures is_code { IfOk result (λ v. IsArrangementCode v.items) }
    ensures length { IfOk result (λ v. length v.items ≡ length entries.now) }
{
    let least = least_of(entries);
    if are_near(entries, least) {
        return code_from(alloc, entries, least);
    }
    let ranks = ranks(alloc, entries)?;
    code_from(alloc, &ranks, 0)
}

// The least entry, and the greatest number where there is no entry.
fn least_of(entries: &[u32]) -> u32
    ensures { EachIndex entries.now (λ place. result ≤ slice_index entries.now place) }
{
    let mut least = u32::MAX;
    'entries: for entry in entries {
        if *entry < least {
            least = *entry;
        }
    }
    least
}

// Whether each entry is above the least one by less than the number of entries.
fn are_near(entries: &[u32], least: u32) -> bool
    requires { length entries.now < 2 ^ 32 }
    ensures { IsTrue result ↔ All (λ entry. entry < least + length entries.now) entries.now }
{
    let end = least as usize + entries.len();
    entries.iter().all(|entry| (*entry as usize) < end)
}

// For each entry how many entries are smaller. This list has the same code.
fn ranks(alloc: Global, entries: &[u32]) -> Result<Vec<u32>, AllocError>
    requires { length entries.now < 2 ^ 32 }
    ensures ranks { IfOk result (λ v. v.items ≡ ranks_among entries.now entries.now) }
    ensures length { IfOk result (λ v. length v.items ≡ length entries.now) }
{
    let mut sorted = Vec::from_slice(alloc, entries)?;
    sorted.sort_unstable();
    let mut ranks = vec![in alloc; 0u32; entries.len()]?;
    write_ranks(entries, &sorted, &mut ranks);
    Ok(ranks)
}

// Writes for each entry how many of the sorted entries are smaller.
fn write_ranks(entries: &[u32], sorted: &[u32], ranks: &mut [u32])
    requires few { length entries.now < 2 ^ 32 }
    requires ranks_length { length ranks.old ≡ length entries.now }
    requires sorted { IsNonDecreasing sorted.now }
    requires same_entries { (number : ℕ) → count_below number sorted.now ≡ count_below number entries.now }

    ensures { ranks.new ≡ ranks_among entries.now entries.now }
{
    'entries: for (place, entry) in entries.iter().enumerate() {
        ranks[place] = rank_in(sorted, *entry) as u32;
    }
}

// How many of the sorted entries are smaller than this one.
fn rank_in(sorted: &[u32], entry: u32) -> usize
    requires { IsNonDecreasing sorted.now }
    ensures { result ≡ count_below entry sorted.now }
{
    sorted.partition_point(|other| *other < entry)
}

// The code of numbers of a range that begins with the least and is no longer than they are many.
fn code_from(alloc: Global, numbers: &[u32], least: u32) -> Result<Vec<u64>, AllocError>
    requires few { length numbers.now < 2 ^ 32 }
    requires least { EachIndex numbers.now (λ place. least ≤ slice_index numbers.now place) }
    requires near { All (λ number. number < least + length numbers.now) numbers.now }

    ensures code { IfOk result (λ v. v.items ≡ code_of numbers.now) }
    ensures is_code { IfOk result (λ v. IsArrangementCode v.items) }
    ensures length { IfOk result (λ v. length v.items ≡ length numbers.now) }
{
    let mut code = vec![in alloc; 0u64; numbers.len()]?;
    if is_written_by_set(alloc, numbers, least, &mut code)? {
        return Ok(code);
    }
    // A number comes twice, and a set can't hold it twice.
    let mut counts = vec![in alloc; 0u32; list_length(numbers.len())]?;
    count_later(numbers, least, &mut counts, &mut code);
    Ok(code)
}

// Writes the code where no two of the numbers are the same, and says whether that is so.
fn is_written_by_set(
    alloc: Global,
    numbers: &[u32],
    least: u32,
    code: &mut [u64],
) -> Result<bool, AllocError>
    requires few { length numbers.now < 2 ^ 32 }
    requires least { EachIndex numbers.now (λ place. least ≤ slice_index numbers.now place) }
    requires near { All (λ number. number < least + length numbers.now) numbers.now }
    requires code_length { length code.old ≡ length numbers.now }

    ensures code { IfOk result (λ different. IsTrue different → code.new ≡ code_of numbers.now) }
    ensures is_code { IfOk result (λ different. IsTrue different → IsArrangementCode code.new) }
{
    let many_words = words_for(numbers.len());
    let mut words = vec![in alloc; 0u64; many_words]?;
    let mut counts = vec![in alloc; 0u32; many_words]?;
    Ok(count_different(numbers, least, &mut words, &mut counts, code))
}

// Writes the code from its last entry on, each time with the later numbers in the set, and stops at a number that is
// there already.
fn count_different(
    numbers: &[u32],
    least: u32,
    words: &mut [u64],
    counts: &mut [u32],
    code: &mut [u64],
) -> bool
    requires few { length numbers.now < 2 ^ 32 }
    requires least { EachIndex numbers.now (λ place. least ≤ slice_index numbers.now place) }
    requires near { All (λ number. number < least + length numbers.now) numbers.now }
    requires as_long { length words.old ≡ length counts.old }
    requires power { IsPowerOfTwo (length counts.old) }
    requires few_words { length counts.old ≤ 2 ^ 32 }
    requires enough { length numbers.now ≤ 64 * length words.old }
    requires code_length { length code.old ≡ length numbers.now }
    requires no_bits { EachIndex words.old (λ place. slice_index words.old place ≡ 0) }
    requires none_counted { EachIndex counts.old (λ place. slice_index counts.old place ≡ 0) }

    ensures code { IsTrue result → code.new ≡ code_of numbers.now }
    ensures is_code { IsTrue result → IsArrangementCode code.new }
{
    'different: for place in (0..numbers.len()).rev() {
        let Some(smaller) = insert(words, counts, (numbers[place] - least) as usize) else {
            return false;
        };
        code[place] = smaller as u64;
    }
    true
}

// Writes the code from its last entry on, each time with the later numbers counted.
fn count_later(numbers: &[u32], least: u32, counts: &mut [u32], code: &mut [u64])
    requires few { length numbers.now < 2 ^ 32 }
    requires least { EachIndex numbers.now (λ place. least ≤ slice_index numbers.now place) }
    requires near { All (λ number. number < least + length numbers.now) numbers.now }
    requires power { IsPowerOfTwo (length counts.old) }
    requires enough { length numbers.now ≤ length counts.old }
    requires few_counts { length counts.old ≤ 2 ^ 32 }
    requires code_length { length code.old ≡ length numbers.now }
    requires none_counted { EachIndex counts.old (λ place. slice_index counts.old place ≡ 0) }

    ensures code { code.new ≡ code_of numbers.now }
    ensures is_code { IsArrangementCode code.new }
{
    'from_last: for place in (0..numbers.len()).rev() {
        code[place] = put(counts, (numbers[place] - least) as usize, 1) as u64;
    }
}
