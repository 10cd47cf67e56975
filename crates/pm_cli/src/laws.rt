//! Laws of the answer.
ghost use Rattle.pm_cli.specs.steps.ClassLaws.{IsSampler};
ghost use Rattle.pm_cli.specs.Answer.{AnswersReader};
ghost use Rattle.pm_cli.specs.Laws.{HasOneAnswer, HasSomeAnswer, AnswersByWords, ClosedTreesOpen, OpenedMapsClose, PrintedMapsStay, DualsReturn, MedialsReturn, UnmedialsReturn, SampledListsReturn, SampledMapsAreCounted, UnsampledPairsReturn};

use crate::class::each_class_has_laws;
use pm_class::MapClass;

// The laws of a class, as one bundle.
pub(crate) fn law<C: MapClass>()
    ensures { IsSampler (record {
      Measure = C.Size;
      most_edges = C.MOST_EDGES;
      is_size = C.is_size;
      choice_limits = C.choice_limits;
      residue_limits = C.residue_limits;
      has = C.has;
      answers = C.answers;
      samples = C.samples;
    }) }
{
    C::is_one_to_one();
}

/// A law: words and bytes have one answer and no other, so that each refusal comes exactly where its rule is the first
/// that is broken; and none are without one.
pub fn words_and_bytes_have_one_answer()
    ensures one { HasOneAnswer }
    ensures some { HasSomeAnswer }
{
    each_class_has_laws();
}

/// A law: `open eulerian` gives back the file that `close eulerian` answered, and `close eulerian` the canonical map of the
/// map that `open eulerian` answered.
pub fn opening_undoes_closing()
    ensures opened { ClosedTreesOpen AnswersReader }
    ensures closed { OpenedMapsClose AnswersReader }
    ensures opened_by_words { ClosedTreesOpen AnswersByWords }
    ensures closed_by_words { OpenedMapsClose AnswersByWords }
{}

/// A law: what `canon`, `medial`, `unmedial`, `dual` or `close` answered, `canon` answers by that very text.
pub fn printed_maps_stay()
    ensures files { PrintedMapsStay AnswersReader }
    ensures words { PrintedMapsStay AnswersByWords }
{}

/// A law: `dual` of what `dual` answered to a map file is what `canon` answers to that file. So is `unmedial` of what
/// `medial` answered, and `medial` of what `unmedial` answered.
pub fn images_return()
    ensures duals { DualsReturn AnswersReader }
    ensures medials { MedialsReturn AnswersReader }
    ensures unmedials { UnmedialsReturn AnswersReader }
    ensures duals_by_words { DualsReturn AnswersByWords }
    ensures medials_by_words { MedialsReturn AnswersByWords }
    ensures unmedials_by_words { UnmedialsReturn AnswersByWords }
{}

/// A law: of what `sample` answered to a choices file for a size, `unsample` for the class gives back that very file.
pub fn unsampling_undoes_sampling()
    ensures files { SampledListsReturn AnswersReader }
    ensures words { SampledListsReturn AnswersByWords }
{
    each_class_has_laws();
}

/// A law: of the file that `unsample` answered for a class, `sample` for the size of the map gives back the canonical map of
/// the map file, as `canon` answers it, and its residue line.
pub fn sampling_undoes_unsampling()
    ensures files { UnsampledPairsReturn AnswersReader }
    ensures words { UnsampledPairsReturn AnswersByWords }
{
    each_class_has_laws();
}

/// A law: to what `sample` answered for a size, `check` for the class answers `ok` and how many vertices, edges and faces
/// the map has that the choices give.
pub fn sampled_maps_are_counted()
    ensures files { SampledMapsAreCounted AnswersReader }
    ensures words { SampledMapsAreCounted AnswersByWords }
{
    each_class_has_laws();
}
