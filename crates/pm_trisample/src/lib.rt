//! The sampler of simple triangulations: a list of bounded choices becomes a canonical map and a residue.
#![tactic(auto)]

mod anew;
mod laws;
mod objects;
mod sample;

pub use laws::tri_lists_are_sampled;
pub use sample::{tri_sample, tri_sample_unnamed, tri_sample_valid};

#[cfg(test)]
mod tests;
