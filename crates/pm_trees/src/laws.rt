ghost use Rattle.pm_trees.specs.Reading.{HasOneAnswer};

/// There is one answer to a word, but for want of memory.
#[tactic(auto, using(crate::proofs::Unique::one_answer))]
pub fn answer_is_unique()
    ensures { HasOneAnswer }
{}

ghost use Rattle.pm_trees.specs.Replanting.{EachLeafIsReplanted, LeavesAreTurned, ReplantedIsAlike, ReplantedIsUnique, ReplantingIsUndone};

/// A blossoming tree can be planted at each of its leaves, in one way; it stays a blossoming tree with as many letters,
/// leaves and nodes of each degree, its leaves are counted from the new plant on, and planting it at the old plant undoes
/// it.
pub fn trees_are_replanted()
    ensures each { EachLeafIsReplanted }
    ensures unique { ReplantedIsUnique }
    ensures alike { ReplantedIsAlike }
    ensures leaves { LeavesAreTurned }
    ensures undone { ReplantingIsUndone }
{}

ghost use Rattle.pm_trees.specs.Replanting.{ProfileIsKept, ProfileIsUnique};

/// A tree has one profile, and a tree that is replanted has the same.
pub fn profiles_are_kept()
    ensures unique { ProfileIsUnique }
    ensures kept { ProfileIsKept }
{}

ghost use Rattle.pm_trees.specs.Profile.{PairsHaveOneAnswer, TableHasOneAnswer};

/// There is one answer to a list of pairs, and one to a table of counts, but for want of memory.
#[tactic(auto, using(crate::proofs::UniqueProfile::pairs_once, crate::proofs::UniqueProfile::table_once))]
pub fn profile_answer_is_unique()
    ensures pairs { PairsHaveOneAnswer }
    ensures table { TableHasOneAnswer }
{}

ghost use Rattle.pm_trees.specs.OwnEntries.{EntriesAreOwn};

/// The entries of a node are the letters of the places that belong to it: of each kind of letters but `)` it owns as many, and
/// the plant is one more of the root node. So its degree and its buds are counts of its own letters.
#[tactic(auto, using(crate::proofs::OwnEntries::entries_are_own))]
pub fn entries_are_own()
    ensures { EntriesAreOwn }
{}
