//! Lines, words and numbers of texts, and the line at which a text breaks its form.
#![tactic(auto)]

mod find;
mod form;
mod leading;
mod lines;
mod numbers;
mod words;

pub use form::{Form, broken_line_is_unique, valid_has_no_broken_line};
pub use leading::{LeadingNumber, leading_number};
pub use lines::{Line, Lines};
pub use numbers::{number, number_has_one_spelling, put_number, put_spaced_number};
pub use words::Words;

#[cfg(test)]
mod tests;
