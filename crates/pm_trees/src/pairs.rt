//! The rules of a list of pairs of a degree and a count.
ghost use Rattle.std.specs.Prelude.{◌≡◌, ℕ, ◌<◌, ◌^◌, ◌↔◌, IsTrue, MatchOption, length};
ghost use Rattle.pm_brackets.specs.First.{IsFirst};
ghost use Rattle.pm_trees.specs.Pairs.{ArePairs, BreaksPair, IsRight, degree_sum};

use pm_limits::MAX_DEGREE;

/// Whether a pair of a degree and a count may follow a pair with the degree `before`.
fn is_right(before: u32, degree: u32, count: u32) -> bool
    ensures { IsTrue result ↔ IsRight before degree count }
{
    degree % 2 == 0 && degree >= 2 && degree <= MAX_DEGREE && before < degree && count > 0
}

/// The place of the first pair that isn't right; 0 at the empty list.
pub(crate) fn first_wrong(pairs: &[(u32, u32)]) -> Option<u32>
    requires { length pairs.now < 2 ^ 32 }
    ensures { MatchOption result (ArePairs pairs.now) (IsFirst (BreaksPair pairs.now)) }
{
    if pairs.is_empty() {
        return Some(0);
    }
    let mut before = 0;
    'pairs: for i in 0..pairs.len() {
        let (degree, count) = pairs[i];
        if !is_right(before, degree, count) {
            return Some(i as u32);
        }
        before = degree;
    }
    None
}

/// The sum of the degrees of all nodes.
pub(crate) fn degree_sum(pairs: &[(u32, u32)]) -> u64
    requires { ArePairs pairs.now }
    ensures { result ≡ degree_sum pairs.now }
{
    let mut sum = 0;
    'pairs: for i in 0..pairs.len() {
        let (degree, count) = pairs[i];
        sum += u64::from(degree) * u64::from(count);
    }
    sum
}
