//! Bud patterns: at which of its entries a node has its buds.
ghost use Rattle.std.specs.Prelude.{◌≡◌, ◌-◌, ◌*◌, ◌/◌, ◌^◌, ◌<◌, ◌≤◌, length};
ghost use Rattle.pm_trees.specs.Binomial.{choose};
ghost use Rattle.pm_trees.specs.BudPattern.{HasRank, IsHalfDegree, IsPattern, PatternsAreRanked, half_degree};

use crate::letters::BUD;
use pm_limits::MAX_DEGREE;

/// In a bud pattern, a child or a leaf.
pub const SLOT: u8 = b'c';

// The two letters of a pattern, in the order of the dictionary.
const _: () = prove!(BUD == b'b' && SLOT == b'c');

/// The number of bud patterns of a node of degree 2i, C(2i-1, i), where `half` is i, from 1 to half of `MAX_DEGREE`.
pub fn pattern_count(half: u32) -> u64
    requires { IsHalfDegree half }
    ensures { result ≡ choose (2 * half - 1) half }
{
    let mut count = 1;
    'halves: for i in 1..half {
        count = scaled(count, 2 * (2 * i + 1), i + 1);
    }
    count
}

/// `count * by / over`, rounded down. A division of 128 bits is slow, and most products fit in 64.
fn scaled(count: u64, by: u32, over: u32) -> u64
    requires some { 0 < over }
    requires fits { count * by / over < 2 ^ 64 }
    ensures { result ≡ count * by / over }
{
    if count < 1 << 32 {
        return count * u64::from(by) / u64::from(over);
    }
    (u128::from(count) * u128::from(by) / u128::from(over)) as u64
}

/// Of so many words of so many letters with so many slots, those that begin with a bud.
fn bud_share(total: u64, letters: u32, slots: u32) -> u64
    requires total { total ≡ choose letters slots }
    requires some { 0 < letters }
    requires few { letters < MAX_DEGREE }
    requires slots { slots ≤ letters }
    ensures { result ≡ choose (letters - 1) slots }
{
    scaled(total, letters - slots, letters)
}

/// Writes the bud pattern of the given rank, from 0 in dictionary order with `b` before `c`, for a node of degree 2i,
/// where `half` is i, from 1 to half of `MAX_DEGREE`. The rank is below [`pattern_count`], and `out` has 2i-1 letters.
pub fn pattern(rank: u64, half: u32, out: &mut [u8])
    requires half { IsHalfDegree half }
    requires rank { rank < choose (2 * half - 1) half }
    requires length { length out.old ≡ 2 * half - 1 }
    ensures { HasRank half out.new rank }
{
    let mut total = pattern_count(half);
    let mut rest = rank;
    let mut slots = half;
    let mut left = 2 * half - 1;
    'letters: for letter in out.iter_mut() {
        let with_bud = bud_share(total, left, slots);
        if rest < with_bud {
            *letter = BUD;
            total = with_bud;
        } else {
            *letter = SLOT;
            rest -= with_bud;
            total -= with_bud;
            slots -= 1;
        }
        left -= 1;
    }
}

/// The rank of a pattern of three letters, which is the index of its one bud.
fn bud_place(letters: &[u8]) -> u64
    requires { IsPattern 2 letters.now }
    ensures { HasRank 2 letters.now result }
{
    if letters[0] == BUD {
        0
    } else if letters[1] == BUD {
        1
    } else {
        2
    }
}

/// The rank of a bud pattern, from 0 in dictionary order with `b` before `c`.
pub fn rank(letters: &[u8]) -> u64
    requires half { IsHalfDegree (half_degree letters.now) }
    requires pattern { IsPattern (half_degree letters.now) letters.now }
    ensures { HasRank (half_degree letters.now) letters.now result }
{
    if letters.len() == 3 {
        return bud_place(letters);
    }
    let mut left = letters.len() as u32;
    let mut slots = (left + 1) / 2;
    let mut total = pattern_count(slots);
    let mut before = 0;
    'letters: for letter in letters {
        let with_bud = bud_share(total, left, slots);
        if *letter == BUD {
            total = with_bud;
        } else {
            before += with_bud;
            total -= with_bud;
            slots -= 1;
        }
        left -= 1;
    }
    before
}

/// Ranks and patterns belong together, one to one and in order.
#[tactic(auto, using(crate::proofs::Ranked::patterns_ranked))]
pub fn patterns_are_ranked()
    ensures { PatternsAreRanked }
{}
