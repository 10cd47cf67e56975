//! The laws of growths and of words: calls that do nothing, whose clauses are the laws.
ghost use Rattle.pm_remy.specs.Laws.{GrowthIsOneToOne, WordsAreOneToOne};

/// Each list of choices grows a tree with a leaf more than choices, labelled by the numbers from 0 on, and each tree that
/// is labelled so is grown by one list (Rémy 1985).
#[tactic(auto, using(crate::proofs::GrowthLaws::growth_one_to_one))]
pub fn growth_is_one_to_one()
    ensures { GrowthIsOneToOne }
{}

/// A tree is told by its nodes in preorder and its labels from left to right: of each shape with as many labels as it has
/// leaves there is one tree.
#[tactic(auto, using(crate::proofs::GrowthLaws::words_one_to_one))]
pub fn words_are_one_to_one()
    ensures { WordsAreOneToOne }
{}
