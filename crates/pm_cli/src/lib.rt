//! The program as one call: from words and an input to an output, a line of standard error and a status.
#![tactic(auto)]

mod answer;
mod census;
mod check;
mod choices_file;
mod class;
mod close;
mod command;
mod draw;
mod engine;
mod first_line;
mod laws;
mod map_file;
mod open;
mod printing;
mod profile_word;
mod refusal;
mod sample;
mod stops;
mod tree_file;
mod trip;
mod unsample;
mod words;
mod writing;

pub use class::{Checked, Class, Size};
pub use close::Trees;
pub use command::{Command, Maker, MapTask, Reader, Verb};
pub use engine::run;
pub use laws::{
    images_return, opening_undoes_closing, printed_maps_stay, sampled_maps_are_counted,
    sampling_undoes_unsampling, unsampling_undoes_sampling, words_and_bytes_have_one_answer,
};
pub use refusal::{Limit, MapRule, Refusal, Stop, TreeRule};
pub use words::MAX_RECORDS;
