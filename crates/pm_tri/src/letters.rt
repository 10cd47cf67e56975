/// A stem; the plant, at place 0 of the contour, counts as one.
pub const STEM: u8 = b's';

// Words of trees are read and written as text, so this byte never changes.
const _: () = prove!(STEM == b's');
