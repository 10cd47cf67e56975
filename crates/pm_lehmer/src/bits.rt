//! The ones of a word of 64 bits, from the lowest bit on, and choices without a branch.
ghost use Rattle.std.specs.Prelude.{◌≡◌, ◌-◌, ◌^◌, ◌<◌, ◌≤◌, cond, nat_lt, count_ones};
ghost use Rattle.pm_lehmer.specs.steps.Held.{ones_below, IsBitOfRank};

/// The value where the number is less than the bound, and else 0: their difference borrows 1 or 0.
pub(crate) fn if_less(number: usize, bound: usize, value: usize) -> usize
    requires low { number < 2 ^ 63 }
    requires bounded { bound < 2 ^ 63 }
    ensures value { result ≡ cond (nat_lt number bound) value 0 }
    ensures at_most { result ≤ value }
{
    value * (number.wrapping_sub(bound) >> 63)
}

/// How many ones of the word are below the bit.
pub(crate) fn ones_below(word: u64, bit: u32) -> u32
    requires { bit < 64 }
    ensures value { result ≡ ones_below word bit }
    ensures at_most { result ≤ 64 }
{
    (word % (1 << bit)).count_ones()
}

/// The bit of the word that is one and has so many ones below it.
pub(crate) fn bit_of_rank(word: u64, rank: usize) -> u32
    requires { rank < count_ones word }
    ensures { IsBitOfRank word rank result }
{
    let mut low = 0;
    let mut width = 64;
    let mut left = rank;
    'halving: while width > 1 {
        width /= 2;
        let first_half = ones_below(word >> low, width) as usize;
        low += width - if_less(left, first_half, width as usize) as u32;
        left = left + if_less(left, first_half, first_half) - first_half;
    }
    low
}

/// The word of which so many of the lowest bits are ones, and no other.
pub(crate) fn first_ones(many: u32) -> u64
    requires { many ≤ 64 }
    ensures { result ≡ 2 ^ many - 1 }
{
    if many == 64 {
        return u64::MAX;
    }
    (1 << many) - 1
}
