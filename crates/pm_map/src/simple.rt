//! Whether a map is simple, and what keeps it from being so.
ghost use Rattle.std.specs.Prelude.{◌≡◌, ◌≢◌, ◌↔◌, ◌%◌, ◌^◌, ◌<◌, ◌≤◌, ℕ, Some, length, min, slice_index, IfOk, IsTrue, MatchOption};
ghost use Rattle.pm_perm.specs.Least.{IsLeast};
ghost use Rattle.pm_map.specs.steps.Ends.{AreApart, AreGrouped, AreListed, IsLeastRepeated};
ghost use Rattle.pm_map.specs.Rotation.{structure_of, twin};
ghost use Rattle.pm_map.specs.Simple.{IsNotSimple, IsSimple};

use crate::darts::twin_of;
use crate::rooted_map::RootedMap;
use pm_perm::leaders;
use std::alloc::{AllocError, Global};

/// Why a map isn't simple: the first of these that it has.
#[derive(Clone, Copy, Debug, PartialEq, Eq)]
pub enum NotSimple {
    /// The twin of this dart is at the dart's own vertex. It is the least such dart.
    Loop { dart: u32 },
    /// There is no loop, but another dart has the same vertex as this one and the same far vertex, that of the twin. It is
    /// the least such dart.
    Double { dart: u32 },
}

// A dart, with its vertex and the vertex of its twin, each told by its least dart.
#[derive(Clone, Copy, PartialEq, Eq, PartialOrd, Ord)]
struct Ends {
    vertex: u32,
    far: u32,
    dart: u32,
}

impl RootedMap {
    /// Whether the map is simple: no dart's twin is at the dart's own vertex, and no two edges have the same ends. The
    /// map without darts is simple. It takes the time of sorting the darts.
    ///
    /// # Errors
    ///
    /// `AllocError` where memory runs out.
    pub fn is_simple(&self, alloc: Global) -> Result<bool, AllocError>
        ensures { IfOk result (λ simple. IsTrue simple ↔ IsSimple (structure_of self.now)) }
    {
        let found = self.why_not_simple(alloc)?;
        Ok(found.is_none())
    }

    /// The least loop or, where there is none, the least double dart; none where the map is simple. It takes the time of
    /// sorting the darts.
    ///
    /// # Errors
    ///
    /// `AllocError` where memory runs out.
    pub fn why_not_simple(&self, alloc: Global) -> Result<Option<NotSimple>, AllocError>
        ensures { IfOk result (λ found. MatchOption found (IsSimple (structure_of self.now)) (IsNotSimple (structure_of self.now))) }
    {
        let leaders = leaders(alloc, self.sigma())?;
        if let Some(dart) = least_loop(&leaders) {
            return Ok(Some(NotSimple::Loop { dart }));
        }
        let mut ends = ends_list(alloc, &leaders)?;
        ends.sort_unstable();
        if let Some(dart) = least_double(&ends) {
            return Ok(Some(NotSimple::Double { dart }));
        }
        Ok(None)
    }
}

/// The least dart with the same leader as its twin.
fn least_loop(leaders: &[u32]) -> Option<u32>
    requires even { length leaders.now % 2 ≡ 0 }
    requires few { length leaders.now < 2 ^ 32 }
    ensures { MatchOption result ((d : ℕ) → d < length leaders.now → slice_index leaders.now d ≢ slice_index leaders.now (twin d)) (IsLeast (length leaders.now) (λ d. slice_index leaders.now d ≢ slice_index leaders.now (twin d)) (λ d. slice_index leaders.now d ≡ slice_index leaders.now (twin d))) }
{
    'darts: for dart in 0..leaders.len() {
        if leaders[dart] == leaders[twin_of(dart as u32) as usize] {
            return Some(dart as u32);
        }
    }
    None
}

/// The ends of the edge of each dart.
fn ends_list(alloc: Global, leaders: &[u32]) -> Result<Vec<Ends>, AllocError>
    requires even { length leaders.now % 2 ≡ 0 }
    requires few { length leaders.now < 2 ^ 32 }
    ensures { IfOk result (λ ends. AreListed leaders.now ends.items) }
{
    let mut ends = Vec::with_capacity(alloc, leaders.len())?;
    'darts: for dart in 0..leaders.len() {
        let far = leaders[twin_of(dart as u32) as usize];
        ends.push(Ends {
            vertex: leaders[dart],
            far,
            dart: dart as u32,
        })?;
    }
    Ok(ends)
}

/// The least dart of the entries that have the ends of another entry. Entries with equal ends stand side by side.
fn least_double(ends: &[Ends]) -> Option<u32>
    requires { AreGrouped ends.now }
    ensures { MatchOption result (AreApart ends.now) (IsLeastRepeated ends.now) }
{
    let mut least = None;
    'entries: for place in 1..ends.len() {
        let before = ends[place - 1];
        let here = ends[place];
        if before.vertex == here.vertex && before.far == here.far {
            least = Some(lesser(least, before.dart.min(here.dart)));
        }
    }
    least
}

/// The lesser of the dart and the one that was found before, if one was.
fn lesser(found: Option<u32>, dart: u32) -> u32
    ensures { MatchOption found (result ≡ dart) (λ other. result ≡ min other dart) }
{
    match found {
        None => dart,
        Some(other) => other.min(dart),
    }
}
