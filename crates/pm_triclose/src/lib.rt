//! The closure of balanced stem trees, from which simple triangulations come: its definition, and that of its whole tree.
#![tactic(auto)]

mod close;
mod closing;
mod laws;

pub use close::{TriCloseRefusal, tri_close, tri_close_balanced};
pub use laws::{
    closures_are_plane, closures_are_renamed, closures_are_same, closures_are_simple,
    closures_are_whole, stem_trees_have_closures,
};

#[cfg(test)]
mod tests;
