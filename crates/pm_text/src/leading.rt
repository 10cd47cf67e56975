//! Numbers at the prefix of a text.
ghost use Rattle.std.specs.Prelude.{◌≡◌, ℕ, ◌+◌, ◌≤◌, length, slice_index, MatchOption};
ghost use Rattle.pm_text.specs.Numeral.{AreLeadingDigits, HasDigit, IsLeadingNumber, ReadsDigits};

// So many digits write a number of 64 bits, whatever they are.
const SAFE_DIGITS: usize = 19;

/// A number at the prefix of a text.
#[derive(Clone, Copy, Debug, PartialEq, Eq)]
pub struct LeadingNumber {
    /// The number.
    pub value: u64,
    /// How many bytes spell it.
    pub length: usize,
}

/// The number that the digits at the prefix of `bytes` spell, up to the first byte that is no digit, where they spell one of
/// at most [`u64::MAX`] without a leading zero. `None` exactly elsewhere.
pub fn leading_number(bytes: &[u8]) -> Option<LeadingNumber>
    ensures { MatchOption result ((value count : ℕ) → ¬ IsLeadingNumber bytes.now value count)
        (λ number. IsLeadingNumber bytes.now number.value number.length) }
{
    let number = leading_digits(bytes)?;
    if number.length == 0 || (number.length > 1 && bytes[0] == b'0') {
        return None;
    }
    Some(number)
}

// What the digits at the prefix write, where it fits; they may be none, and begin with a zero.
fn leading_digits(bytes: &[u8]) -> Option<LeadingNumber>
    ensures { MatchOption result ((value count : ℕ) → ¬ IsLeadingNumber bytes.now value count)
        (λ number. AreLeadingDigits bytes.now number.value number.length) }
{
    let prefix = few_digits(&bytes[..bytes.len().min(SAFE_DIGITS)]);
    if prefix.length < SAFE_DIGITS {
        return Some(prefix);
    }
    more_digits(bytes, prefix)
}

// What the digits at the prefix of so few bytes write. It needs no test for what is too great.
fn few_digits(bytes: &[u8]) -> LeadingNumber
    requires { length bytes.now ≤ SAFE_DIGITS }
    ensures { AreLeadingDigits bytes.now result.value result.length }
{
    let mut value: u64 = 0;
    let mut length: usize = 0;
    'digits: while let Some(digit) = digit_at(bytes, length) {
        value = 10 * value + u64::from(digit);
        length += 1;
    }
    LeadingNumber { value, length }
}

// What the digits at the prefix write, where the first of them are read, and where it fits.
fn more_digits(bytes: &[u8], prefix: LeadingNumber) -> Option<LeadingNumber>
    requires { ReadsDigits bytes.now prefix.length prefix.value }
    ensures { MatchOption result ((value count : ℕ) → ¬ IsLeadingNumber bytes.now value count)
        (λ number. AreLeadingDigits bytes.now number.value number.length) }
{
    let mut value = prefix.value;
    let mut length = prefix.length;
    'digits: while let Some(digit) = digit_at(bytes, length) {
        value = value.checked_mul(10)?.checked_add(u64::from(digit))?;
        length += 1;
    }
    Some(LeadingNumber { value, length })
}

// The value of the digit at the place, where one stands there.
fn digit_at(bytes: &[u8], place: usize) -> Option<u8>
    ensures { MatchOption result (¬ HasDigit bytes.now place)
        (λ digit. HasDigit bytes.now place × (slice_index bytes.now place ≡ 48 + digit)) }
{
    let byte = *bytes.get(place)?;
    if byte.is_ascii_digit() {
        Some(byte - b'0')
    } else {
        None
    }
}
