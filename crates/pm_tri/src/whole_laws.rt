//! The law of the whole tree of a balanced stem tree.
ghost use Rattle.pm_tri.specs.Whole.{ClosesAlike, OtherRunCloses, PlantsRunCloses};

/// Where the last letter of a balanced stem tree gives way to two new nodes, one the child of the other, each stem closes at
/// a later place: where it did, or at the second new side where it is of the plant's run, or else at the first.
pub fn whole_trees_close_ahead()
    ensures alike { ClosesAlike }
    ensures plants_run { PlantsRunCloses }
    ensures other_run { OtherRunCloses }
{}
