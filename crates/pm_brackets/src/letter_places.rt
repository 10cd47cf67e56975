//! How often a letter stands in a word, and its places, numbered from the plant on, which is number 0.
ghost use Rattle.std.specs.Prelude.{◌≡◌, ◌<◌, ◌≤◌, ◌^◌, ◌∷◌, length, take};
ghost use Rattle.pm_brackets.specs.Word.{IsLetterAt, count};

/// How often the letter stands in the word.
pub fn occurrences(word: &[u8], letter: u8) -> u32
    requires { length word.now < 2 ^ 32 }
    ensures { result ≡ count letter word.now }
{
    word.iter().filter(|x| **x == letter).count() as u32
}

/// The place of the letter of this number in a word on a plant of the same letter, which is number 0.
pub fn nth_letter(word: &[u8], letter: u8, number: u32) -> u32
    requires small { length word.now < 2 ^ 32 }
    requires number { number < count letter (letter ∷ word.now) }
    ensures { IsLetterAt letter (letter ∷ word.now) number result }
{
    if number == 0 {
        return 0;
    }
    let mut left = number;
    'letters: for (i, x) in word.iter().enumerate() {
        if *x == letter {
            if left == 1 {
                return i as u32 + 1;
            }
            left -= 1;
        }
    }
    unreachable!()
}

/// How often the letter stands before this place of a word on a plant of the same letter, the plant counted: the number of
/// the letter that stands at the place, where it is one.
pub fn letters_before(word: &[u8], letter: u8, place: u32) -> u32
    requires small { length word.now < 2 ^ 32 }
    requires within { place ≤ length word.now }
    ensures { result ≡ count letter (take place (letter ∷ word.now)) }
{
    if place == 0 {
        return 0;
    }
    occurrences(&word[..place as usize - 1], letter) + 1
}
