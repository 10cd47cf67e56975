//! How many cycles a permutation has.
ghost use Rattle.std.specs.Prelude.{◌≡◌, ◌+◌, ◌^◌, ◌<◌, false, length, slice_index, slice_index_or};
ghost use Rattle.pm_perm.specs.Permutation.{IsPermutationList};
ghost use Rattle.pm_perm.specs.Cycles.{cycles};
ghost use Rattle.pm_perm.specs.steps.Leading.{IsMarkedBelow};

/// The number of cycles of a permutation of fewer than 2^32 numbers. There are as many marks as entries; what is left
/// in them is free.
pub fn count_cycles(values: &[u32], marks: &mut [bool]) -> u32
    requires few { length values.now < 2 ^ 32 }
    requires permutation { IsPermutationList values.now }
    requires marks_length { length marks.old ≡ length values.now }

    ensures { result ≡ cycles (length values.now) (slice_index values.now) }
{
    marks.fill(false);
    let mut count = 0;
    'starts: for start in 0..values.len() {
        if !marks[start] {
            mark_cycle(values, marks, start);
            count += 1;
        }
    }
    count
}

// Marks the cycle of its least number, where the cycles with lesser leaders are marked already.
fn mark_cycle(values: &[u32], marks: &mut [bool], start: usize)
    requires permutation { IsPermutationList values.now }
    requires marks_length { length marks.old ≡ length values.now }
    requires inside { start < length values.now }
    requires marked { IsMarkedBelow (length values.now) (slice_index values.now) start (λ k. slice_index_or marks.old k false) }
    requires unmarked { slice_index_or marks.old start false ≡ false }

    ensures { IsMarkedBelow (length values.now) (slice_index values.now) (start + 1) (λ k. slice_index_or marks.new k false) }
{
    let mut at = start;
    'walk: while !marks[at] {
        marks[at] = true;
        at = values[at] as usize;
    }
}
