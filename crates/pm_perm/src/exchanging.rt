//! The exchange of two values of a permutation.
ghost use Rattle.std.specs.Prelude.{◌≡◌, ◌≢◌, ◌+◌, ◌^◌, ◌<◌, eqb, cond, length, slice_index};
ghost use Rattle.std.specs.List.{swap};
ghost use Rattle.pm_perm.specs.Permutation.{IsPermutationList};
ghost use Rattle.pm_perm.specs.Cycles.{leader, cycles};
ghost use Rattle.pm_perm.specs.Exchange.{IsExchangeBelow};

/// Exchanges the values at two different places of a permutation of fewer than 2^32 numbers. There is one cycle more
/// where the two places were in one cycle, and one fewer where they weren't.
pub fn exchange(values: &mut [u32], a: usize, b: usize)
    requires few { length values.old < 2 ^ 32 }
    requires permutation { IsPermutationList values.old }
    requires first_inside { a < length values.old }
    requires second_inside { b < length values.old }
    requires differ { a ≢ b }

    ensures swapped { values.new ≡ swap values.old a b }
    ensures exchanged { IsExchangeBelow (length values.old) (slice_index values.old) (slice_index values.new) a b }
    ensures still { IsPermutationList values.new }
    ensures count { let before = slice_index values.old in cycles (length values.old) (slice_index values.new) + cond (eqb (leader (length values.old) before a) (leader (length values.old) before b)) 0 2 ≡ cycles (length values.old) before + 1 }
{
    values.swap(a, b);
}
