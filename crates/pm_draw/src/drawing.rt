//! Drawing a list.
ghost use Rattle.std.specs.Prelude.{◌≡◌, ◌<◌, ◌≤◌, length, IfOk, OnOk, OnErr};
ghost use Rattle.pm_lists.specs.Valid.{AreBounds, IsValidList};
ghost use Rattle.pm_draw.specs.Drawn.{words_of, below, drawn};

use pm_lists::{Bounds, NumList};
use rand::RngExt;
use rand_pcg::Pcg64;
use std::alloc::{AllocError, Global};

/// Draws a list: for each bound in order, also for a bound of 1, what one call of `rand`'s `random_range` gives for the
/// range from 0 to the bound, the bound left out.
///
/// # Errors
///
/// `AllocError` where memory runs out. The memory is taken before the first draw, so the generator is then as before.
pub fn draw_list(alloc: Global, rng: &mut Pcg64, bounds: &Bounds) -> Result<NumList, AllocError>
    ensures drawn { IfOk result (λ list. list ≡ (drawn bounds.now (words_of rng.old)).0) }
    ensures left { OnOk result (words_of rng.new ≡ (drawn bounds.now (words_of rng.old)).1) }
    ensures valid { IfOk result (λ list. IsValidList list bounds.now) }
    ensures untouched { OnErr result (rng.new ≡ rng.old) }
{
    let limits = bounds.values();
    let mut entries = vec![in alloc; 0u64; limits.len()]?;
    draw_entries(rng, limits, &mut entries);
    Ok(NumList::of(entries))
}

// Draws an entry for each bound.
fn draw_entries(rng: &mut Pcg64, bounds: &[u64], entries: &mut [u64])
    requires bounds { AreBounds bounds.now }
    requires room { length entries.old ≡ length bounds.now }
    ensures drawn { entries.new ≡ (drawn bounds.now (words_of rng.old)).0 }
    ensures left { words_of rng.new ≡ (drawn bounds.now (words_of rng.old)).1 }
    ensures valid { IsValidList entries.new bounds.now }
{
    for (place, bound) in bounds.iter().enumerate() {
        entries[place] = draw_below(rng, *bound);
    }
}

// Draws a number below the bound.
fn draw_below(rng: &mut Pcg64, bound: u64) -> u64
    requires { 1 ≤ bound }
    ensures drawn { result ≡ (below bound (words_of rng.old)).0 }
    ensures left { words_of rng.new ≡ (below bound (words_of rng.old)).1 }
    ensures within { result < bound }
{
    rng.random_range(0..bound)
}
