//! Lists of numbers: the bounds of their entries, and the lines that spell them.
#![tactic(auto)]

mod bounds;
mod check;
mod laws;
mod num_list;
mod put;
mod read;

pub use bounds::Bounds;
pub use check::{ListRefusal, check_list};
pub use laws::{line_spells_one_list, list_has_one_line};
pub use num_list::NumList;
pub use put::put_list;
pub use read::{ListTextRefusal, read_list};

#[cfg(test)]
mod tests;
