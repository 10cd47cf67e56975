//! Profiles as words.
ghost use Rattle.std.specs.Prelude.{◌≡◌, ◌≢◌, ℕ, ◌<◌, ◌^◌, List, decimal, IfOk, MatchOption};
ghost use Rattle.pm_trees.specs.Pairs.{IsProfile};
ghost use Rattle.pm_cli.specs.ProfileWord.{pair_text, profile_text, IsPairOfWords, ArePairsOfWords};

use pm_text::number;
use pm_trees::{Profile, ProfileRefusal};
use std::alloc::{AllocError, Global};

// The number of 32 bits that the text spells.
pub(crate) fn small_number(text: &str) -> Option<u32>
    ensures { MatchOption result
        ((value : ℕ) → value < 2 ^ 32 → text.now ≢ decimal value)
        (λ value. (value < 2 ^ 32) × (text.now ≡ decimal value)) }
{
    let value = number(text.as_bytes())?;
    u32::try_from(value).ok()
}

// The degree and the count that the text spells, as `D:C`.
fn read_pair(text: &str) -> Option<(u32, u32)>
    ensures { MatchOption result
        ((pair : ℕ × ℕ) → IsPairOfWords pair → text.now ≢ pair_text pair)
        (λ pair. IsPairOfWords pair × (text.now ≡ pair_text pair)) }
{
    let (degree, count) = text.split_once(':')?;
    Some((small_number(degree)?, small_number(count)?))
}

// The pairs that the word spells, with single commas between.
fn read_pairs(alloc: Global, word: &str) -> Result<Option<Vec<(u32, u32)>>, AllocError>
    ensures { IfOk result (λ found. MatchOption found
        ((pairs : List (ℕ × ℕ)) → ArePairsOfWords pairs → word.now ≢ profile_text pairs)
        (λ pairs. ArePairsOfWords pairs.items × (word.now ≡ profile_text pairs.items))) }
{
    let mut pairs = Vec::new(alloc);
    for text in word.split(',') {
        let Some(pair) = read_pair(text) else {
            return Ok(None);
        };
        pairs.push(pair)?;
    }
    Ok(Some(pairs))
}

// The profile that the word spells, or `None` where it spells none.
pub(crate) fn read_profile(alloc: Global, word: &str) -> Result<Option<Profile>, AllocError>
    ensures { IfOk result (λ found. MatchOption found
        ((pairs : List (ℕ × ℕ)) → IsProfile pairs → word.now ≢ profile_text pairs)
        (λ pairs. IsProfile pairs × (word.now ≡ profile_text pairs))) }
{
    let Some(pairs) = read_pairs(alloc, word)? else {
        return Ok(None);
    };
    if pairs.len() > u32::MAX as usize {
        return Ok(None);
    }
    match Profile::of_pairs(alloc, &pairs) {
        Ok(profile) => Ok(Some(profile)),
        Err(ProfileRefusal::Memory) => Err(AllocError),
        Err(ProfileRefusal::Pair { .. }) => Ok(None),
        Err(ProfileRefusal::TooMany { .. }) => Ok(None),
    }
}
