//! Map files: the text of a rooted map.
#![tactic(auto)]

mod answer;
mod class_line;
mod file;
mod laws;
mod naming;
mod numbers;
mod read;
mod refusal;
mod rotation;
mod write;
mod write_twins;

pub use answer::{read_map, read_map_file, read_sample_file};
pub use class_line::{ClassLine, PairList};
pub use laws::{map_file_answer_is_unique, printed_map_is_read_again};
pub use refusal::FileRefusal;
pub use write::{canonical_bytes, map_bytes, map_has_one_text, put_map};
pub use write_twins::{map_has_one_text_with_twins, put_map2};

#[cfg(test)]
mod tests;
