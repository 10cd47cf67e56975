//! The brackets, and the letter at a place of a word on a plant.
ghost use Rattle.std.specs.Prelude.{◌≡◌, ◌≤◌, ◌∷◌, length, slice_index};

/// The beginning of an edge to a child.
pub const OPEN: u8 = b'(';

/// The end of an edge to a child.
pub const CLOSE: u8 = b')';

// Words are read and written as text, so these bytes never change.
const _: () = prove!(OPEN == b'(' && CLOSE == b')');

/// The letter at a place of a word on a plant: that of the plant at place 0, and the k-th letter at place k.
pub fn letter_at(plant: u8, word: &[u8], place: u32) -> u8
    requires { place ≤ length word.now }
    ensures { result ≡ slice_index (plant ∷ word.now) place }
{
    if place == 0 {
        plant
    } else {
        word[place as usize - 1]
    }
}
