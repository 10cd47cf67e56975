//! Laws of the runs of stem trees.
ghost use Rattle.pm_tri.specs.RunLaws.{BalancedIsBelow, RunStartBalances, RunStartsAreTurned, TwoRuns};

/// In each stem tree exactly two stems start runs. They turn along when the tree is planted at another stem, so that the tree
/// is balanced exactly where it is planted at one of the two; and that is where its last letter is a stem and no prefix of its
/// contour has more sides than stems.
pub fn stem_trees_have_two_runs()
    ensures two { TwoRuns }
    ensures turned { RunStartsAreTurned }
    ensures planted { RunStartBalances }
    ensures balanced { BalancedIsBelow }
{}

ghost use Rattle.pm_tri.specs.BalanceLaws.{HasOneReason, HasSomeReason};

/// There is one answer to whether a stem tree is balanced, and why it isn't; and no stem tree is without one.
#[tactic(auto, using(crate::proofs::OneReason::one_reason, crate::proofs::SomeReason::some_reason))]
pub fn tri_imbalance_is_unique()
    ensures one { HasOneReason }
    ensures some { HasSomeReason }
{}

ghost use Rattle.pm_tri.specs.ClosingLaws.{ClosesAhead, ClosesAtSide, ClosesOnce, ClosesOrIsFree, ClosesWithin, IsInOneRun, IsInOtherRun, IsInPlantsRun, IsInSomeRun};

/// Each stem closes at one side, or it is free, and then in one run. In a balanced tree a stem closes later in the contour,
/// and the stems between close by then; and a free stem belongs to the plant's run exactly where as many sides as stems
/// stand before it, and to the other run where there is one stem more.
pub fn stems_close_at_sides()
    ensures each { ClosesOrIsFree }
    ensures side { ClosesAtSide }
    ensures once { ClosesOnce }
    ensures ahead { ClosesAhead }
    ensures within { ClosesWithin }
    ensures some_run { IsInSomeRun }
    ensures one_run { IsInOneRun }
    ensures plants_run { IsInPlantsRun }
    ensures other_run { IsInOtherRun }
{}
