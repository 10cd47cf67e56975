//! Numbers in texts.
ghost use Rattle.std.specs.Prelude.{◌≡◌, ℕ, ◌<◌, ◌^◌, ◌∷◌, ◌++◌, ◌↔◌, decimal, MatchOption, is_ok, if◌then◌else◌};
ghost use Rattle.std.specs.Option.{SomeIff};
ghost use Rattle.std.specs.Str.Parse.{AllDigits, digits_value};
ghost use Rattle.pm_text.specs.Numeral.{IsNumber, HasOneSpelling};

use crate::leading::leading_number;
use itoa::write_digits;
use std::alloc::{AllocError, Global};

/// The number that `word` spells, where it is `0`, or decimal digits without a leading zero, of at
/// most [`u64::MAX`]. `None` exactly elsewhere.
pub fn number(word: &[u8]) -> Option<u64>
    ensures cases { MatchOption result ((value : ℕ) → ¬ IsNumber word.now value) (IsNumber word.now) }
    ensures exact { (value : ℕ) → (result ≡ Some value) ↔ IsNumber word.now value }
{
    let number = leading_number(word)?;
    if number.length < word.len() {
        return None;
    }
    Some(number.value)
}

/// Appends the one spelling of `value` to `text`.
///
/// # Errors
///
/// Where memory runs out; `text` is then as before.
#[tactic(auto, using(crate::proofs::NumeralLemmas::decimal_is_number))]
pub fn put_number(_alloc: Global, value: u64, text: &mut Vec<u8>) -> Result<(), AllocError>
    ensures text { text.new.items
        ≡ (if is_ok result then text.old.items ++ decimal value else text.old.items) }

    // What is appended is read as the same value.
    ensures read_again { IsNumber (decimal value) value }
{
    let mut digits = [0u8; 20];
    let start = write_digits(value, &mut digits, 20);
    text.extend_from_slice(&digits[start..])
}

/// Appends a space and the one spelling of `value` to `text`.
///
/// # Errors
///
/// Where memory runs out; `text` is then as before.
pub fn put_spaced_number(_alloc: Global, value: u64, text: &mut Vec<u8>) -> Result<(), AllocError>
    ensures { text.new.items
        ≡ (if is_ok result then text.old.items ++ 32 ∷ decimal value else text.old.items) }
{
    let mut bytes = [0u8; 21];
    let start = write_digits(value, &mut bytes, 21) - 1;
    bytes[start] = b' ';
    text.extend_from_slice(&bytes[start..])
}

/// A law: what [`put_number`] appends is the one word that spells the number, so [`number`] reads it
/// again, and reads nothing else as that number.
pub fn number_has_one_spelling()
    ensures { HasOneSpelling }
{}
