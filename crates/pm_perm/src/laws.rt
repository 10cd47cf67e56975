//! The laws of cycles and of part maps: calls that do nothing, whose clauses are the laws.
ghost use Rattle.pm_perm.specs.CycleList.{ExchangeJoinsCycles, ExchangeLeavesCycles, ExchangeSplitsCycle};
ghost use Rattle.pm_perm.specs.CycleLaws.{ExchangeSplitsOrJoins, LeadersTellCycles, NestedPairsSplit, PairsSplitAtMost, RenumberingKeepsCycles};
ghost use Rattle.pm_perm.specs.PartMapLaws.{CutLaw, CutMergesFaces, JoinLaw, JoinSplitsFace, OtherFacesStay, RenumberingLaw};

/// Two numbers are in one cycle of a permutation, the one met from the other, exactly where they have one leader.
pub fn leaders_tell_cycles()
    ensures { LeadersTellCycles }
{}

/// The exchange of two values of a permutation makes one more cycle where the two numbers were in one cycle, and one
/// fewer where they were in two.
pub fn exchange_splits_or_joins()
    ensures { ExchangeSplitsOrJoins }
{}

/// What the exchange of two values of a permutation makes of cycles that are read as lists. A cycle that has both numbers
/// falls apart between them, two that have one each are put together, and each other one stays.
pub fn exchange_splits_or_joins_lists()
    ensures splits { ExchangeSplitsCycle }
    ensures joins { ExchangeJoinsCycles }
    ensures leaves { ExchangeLeavesCycles }
{}

/// Pairs on a ring split it into one more cycle for each pair exactly where they are nested.
pub fn nested_pairs_split()
    ensures { NestedPairsSplit }
{}

/// Pairs split a permutation into at most one more cycle for each pair.
pub fn pairs_split_at_most()
    ensures { PairsSplitAtMost }
{}

/// Renumbering keeps the number of cycles of a permutation.
pub fn renumbering_keeps_cycles()
    ensures { RenumberingKeepsCycles }
{}

/// Two different stems of one face of a part map, made twins, keep the vertices and what is connected, and make one
/// edge and one face more: the face falls apart between them, and each other one stays.
pub fn joining_makes_a_face()
    ensures counts { JoinLaw }
    ensures faces { JoinSplitsFace }
    ensures others { OtherFacesStay }
{}

/// An edge between two faces of a part map, cut into two stems, keeps the vertices and what is connected, and leaves
/// one edge and one face fewer: the two become one, and each other one stays.
pub fn cutting_merges_faces()
    ensures counts { CutLaw }
    ensures faces { CutMergesFaces }
    ensures others { OtherFacesStay }
{}

/// Renumbering the darts of a part map keeps its vertices, edges and faces and what is connected.
pub fn renumbering_keeps_part_maps()
    ensures { RenumberingLaw }
{}
