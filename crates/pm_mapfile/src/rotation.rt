//! The rotation that the lines of a map text tell.
ghost use Rattle.std.specs.Prelude.{◌≡◌, ◌<◌, ◌≤◌, ◌^◌, ℕ, All, MatchOption, length, map};
ghost use Rattle.pm_mapfile.specs.steps.Rotation.{turned_lines, told_dart, AreSizes, AreAllTold, AreFollowers, IsFirstUntold, IsRotationAnswer};

use pm_map::MapRefusal;
use std::alloc::Global;

/// What stands for the dart after one that stands on no line. It is above every dart, since a text has fewer.
const NOWHERE: u32 = u32::MAX;

/// The rotation that carries each dart to the next one on its line, and the last to the first. The darts are those of all
/// lines, one line after another, and the sizes tell how many stand on each. It takes time linear in the darts.
///
/// # Errors
///
/// `NotPermutation` exactly where some dart stands on no line, with the least; or `Memory`.
pub(crate) fn rotation_of_lines(
    alloc: Global,
    darts: &[u64],
    sizes: &[usize],
) -> Result<Vec<u32>, MapRefusal>
    requires sizes { AreSizes sizes.now (length darts.now) }
    requires below { All (λ dart. dart < length darts.now) darts.now }
    requires few { length darts.now < 2 ^ 32 }
    ensures { IsRotationAnswer darts.now sizes.now result }
{
    let mut sigma = vec![in alloc; NOWHERE; darts.len()]?;
    write_followers(darts, sizes, &mut sigma);
    match least_untold(&sigma) {
        None => Ok(sigma),
        Some(dart) => Err(MapRefusal::NotPermutation { dart }),
    }
}

/// Writes for each dart the one after it, line by line. No dart has one before.
fn write_followers(darts: &[u64], sizes: &[usize], followers: &mut [u32])
    requires sizes { AreSizes sizes.now (length darts.now) }
    requires below { All (λ dart. dart < length darts.now) darts.now }
    requires few { length darts.now < 2 ^ 32 }
    requires none { AreFollowers darts.now (turned_lines sizes.now darts.now) 0 (map told_dart followers.old) }
    ensures { AreFollowers darts.now (turned_lines sizes.now darts.now) (length darts.now) (map told_dart followers.new) }
{
    let mut start = 0;
    'lines: for size in sizes {
        let last = start + *size - 1;
        'places: for place in start..last {
            followers[darts[place] as usize] = darts[place + 1] as u32;
        }
        followers[darts[last] as usize] = darts[start] as u32;
        start = last + 1;
    }
}

/// The least dart that has none after it, or `None` where each has one.
fn least_untold(followers: &[u32]) -> Option<u32>
    requires { length followers.now < 2 ^ 32 }
    ensures { MatchOption result (AreAllTold (map told_dart followers.now) followers.now) (IsFirstUntold (map told_dart followers.now)) }
{
    'darts: for dart in 0..followers.len() {
        if followers[dart] == NOWHERE {
            return Some(dart as u32);
        }
    }
    None
}
