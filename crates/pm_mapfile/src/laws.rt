//! The laws of map texts and map files: calls that do nothing, whose clauses are the laws.
ghost use Rattle.pm_mapfile.specs.Answers.{HasOneMapTextAnswer, HasOneMapFileAnswer, HasOneSampleFileAnswer};
ghost use Rattle.pm_mapfile.specs.ReadAgain.{MapTextIsReadAgain, MapFileIsReadAgain, SampleFileIsReadAgain};

/// A law: bytes and a limit have one answer of [`crate::read_map`], one of [`crate::read_map_file`], and one of
/// [`crate::read_sample_file`], but for want of memory.
#[tactic(auto, using(crate::proofs::OneAnswer::one_text_answer, crate::proofs::OneAnswer::one_file_answer, crate::proofs::OneAnswer::one_sample_answer))]
pub fn map_file_answer_is_unique()
    ensures text { HasOneMapTextAnswer }
    ensures file { HasOneMapFileAnswer }
    ensures sample { HasOneSampleFileAnswer }
{}

/// A law: what [`crate::put_map`] appends of a map within the limit is read again as that map, and so is a map file or a
/// sample file of it and a residue line.
#[tactic(auto, using(crate::proofs::ReadAgainLemmas::map_text_is_read_again, crate::proofs::ReadAgainLemmas::map_file_is_read_again, crate::proofs::ReadAgainLemmas::sample_file_is_read_again))]
pub fn printed_map_is_read_again()
    ensures text { MapTextIsReadAgain }
    ensures file { MapFileIsReadAgain }
    ensures sample { SampleFileIsReadAgain }
{}
