ghost use Rattle.std.specs.Prelude.{◌≡◌, ◌≤◌, length, slice_index};
ghost use Rattle.pm_trees.specs.Word.{contour};

/// A leaf; the plant, at place 0 of the contour, counts as one.
pub const LEAF: u8 = b'l';

/// A bud.
pub const BUD: u8 = b'b';

// Words of trees are read and written as text, so these bytes never change.
const _: () = prove!(LEAF == b'l' && BUD == b'b');

/// The letter at a place of the contour of a word: that of the plant at place 0, and the k-th letter at place k.
pub fn letter_at(word: &[u8], place: u32) -> u8
    requires { place ≤ length word.now }
    ensures { result ≡ slice_index (contour word.now) place }
{
    pm_brackets::letter_at(LEAF, word, place)
}
