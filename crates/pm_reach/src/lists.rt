//! The valid lists of bounds, one after another in dictionary order.
ghost use Rattle.std.specs.Prelude.{◌≡◌, ◌<◌, ◌≤◌, false, true, length};
ghost use Rattle.pm_lists.specs.Valid.{AreBounds, IsValidList};
ghost use Rattle.pm_reach.specs.Census.{IsLastList, IsNextList, product};

/// A census takes at most so many lists of choices.
pub const MOST_LISTS: u64 = 1_000_000;

// The number itself: with another one this crate isn't proved.
const _: () = prove!(MOST_LISTS == 1_000_000);

/// Whether the product of the bounds, which is the number of valid lists, is at most [`MOST_LISTS`]. It is taken only until
/// it passes that.
pub(crate) fn has_few_lists(bounds: &[u64]) -> bool
    requires { AreBounds bounds.now }
    ensures few { result ≡ true → product bounds.now ≤ MOST_LISTS }
    ensures many { result ≡ false → MOST_LISTS < product bounds.now }
{
    let mut count: u64 = 1;
    for bound in bounds {
        count = count.saturating_mul(*bound);
        if count > MOST_LISTS {
            return false;
        }
    }
    true
}

/// Makes a valid list the next one in dictionary order, whose first entry weighs most. `false` where it was the last; it is
/// then the first again.
pub(crate) fn next_list(values: &mut [u64], bounds: &[u64]) -> bool
    requires { IsValidList values.old bounds.now }
    ensures next { result ≡ true → IsNextList bounds.now values.old values.new }
    ensures last { result ≡ false → IsLastList bounds.now values.old }
    ensures size { length values.new ≡ length values.old }
{
    let mut left = values.len();
    'places: while left > 0 {
        left -= 1;
        if values[left] + 1 < bounds[left] {
            values[left] += 1;
            return true;
        }
        values[left] = 0;
    }
    false
}
