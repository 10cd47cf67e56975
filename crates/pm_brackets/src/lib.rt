//! Words of matched brackets and other letters on a plant: their other brackets, their letters by number, the ring that they
//! make, read from another place on, and the faults of texts.
#![tactic(auto)]

mod bracketing;
mod faults;
mod letter_places;
mod letters;
mod noting;
mod turning;

pub use bracketing::other_brackets;
pub use faults::first_fault;
pub use letter_places::{letters_before, nth_letter, occurrences};
pub use letters::{CLOSE, OPEN, letter_at};
pub use noting::noted;
pub use turning::turned;

#[cfg(test)]
mod tests;
