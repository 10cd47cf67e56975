//! Laws of canonical maps, for the crates above.
ghost use Rattle.pm_canon.specs.Laws.{EachMapHasCanonical, EachMapHasMeetingList, EachStructureHasCanonical};

/// A law: a rooted map has a canonical map, and a meeting list, which is its vertices in the order in which they are met
/// from the root; and a plane structure with no more edges than a map may have has a canonical map, whatever its twins.
/// Nothing is computed.
pub fn canonical_exists()
    ensures canonical { EachMapHasCanonical }
    ensures met { EachMapHasMeetingList }
    ensures form { EachStructureHasCanonical }
{}
