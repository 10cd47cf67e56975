//! Laws of pairs, for the crates above.
ghost use Rattle.pm_match.specs.Turning.{PairsAreTurned, FreeLeavesAreTurned, FreeLeafBalances};

/// A law: planting a tree at another leaf keeps its pairs and its free leaves, and it is balanced then exactly where that
/// leaf is free.
pub fn pairs_are_turned()
    ensures pairs { PairsAreTurned }
    ensures free { FreeLeavesAreTurned }
    ensures balanced { FreeLeafBalances }
{}
