//! The limits of maps and trees. Each stands here once, and no other number repeats it.
#![tactic(auto)]

/// The greatest number of edges of a map or a tree.
pub const MAX_EDGES: u32 = 4_194_304;

/// The greatest degree of a node of a blossoming tree, and of a vertex of a map that opens.
pub const MAX_DEGREE: u32 = 64;

// The numbers themselves: with another one this crate isn't proved.
const _: () = prove!(MAX_EDGES == 4_194_304);

const _: () = prove!(MAX_DEGREE == 64);
