//! Classes of maps as samplers: a list of bounded choices becomes a map of the class and a residue.
#![tactic(auto)]

mod behind;
mod laws;
mod map_class;
mod sample;

pub use behind::{SampledThrough, sample_unnamed_through, through_is_one_to_one, unsample_through};
pub use laws::{
    each_list_is_sampled, each_map_is_unsampled, lists_are_residues, sample_undoes_unsample,
    unsample_undoes_sample, unsample_undoes_unnamed,
};
pub use map_class::MapClass;
pub use sample::{Sample, SampleRefusal, UnsampleRefusal};
