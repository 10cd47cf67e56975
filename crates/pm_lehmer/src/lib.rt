//! The arrangement code (Lehmer code) of a list of numbers, and the permutation of a code. Both take n·log n steps
//! for n entries, by a set of numbers in words of bits with a tree of counts over the words.
#![tactic(auto)]

mod arranging;
mod bits;
mod coding;
mod counts;
mod laws;
mod sets;

pub use arranging::arrange;
pub use coding::code;
pub use laws::{arrange_undoes_code, code_undoes_arrange};

#[cfg(test)]
mod tests;
