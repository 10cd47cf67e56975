//! The walk along the edges of a structure, which cuts some edges and keeps the others.
#![tactic(auto)]

mod laws;
mod passing;

pub use laws::{walk_has_one_numbering, walked_darts_are_led, walked_edges_are_nested};
pub use passing::{DartKind, Fate, Step, pass};

#[cfg(test)]
mod tests;
