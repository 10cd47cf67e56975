//! Whether a list is a permutation.
ghost use Rattle.std.specs.Prelude.{◌≡◌, ◌↔◌, ℕ, ◌^◌, ◌<◌, false, true, length, slice_index_or, slice_set, IsTrue, Contains};
ghost use Rattle.pm_perm.specs.Permutation.{IsPermutationList};

/// Whether each number below the length stands once in the list, of fewer than 2^32 entries. There are as many marks
/// as entries; mark k is left set exactly where the number k stands in the list.
pub fn is_permutation(values: &[u32], marks: &mut [bool]) -> bool
    requires few { length values.now < 2 ^ 32 }
    requires marks_length { length marks.old ≡ length values.now }

    ensures answer { IsTrue result ↔ IsPermutationList values.now }
    ensures marked { (number : ℕ) → number < length values.now → (slice_index_or marks.new number false ≡ true) ↔ Contains values.now number }
{
    marks.fill(false);
    let mut all_fresh = true;
    'values: for value in values {
        let fresh = mark(marks, *value as usize);
        all_fresh = all_fresh && fresh;
    }
    all_fresh
}

// Marks the number, where it has a mark, and says whether it wasn't marked before.
fn mark(marks: &mut [bool], number: usize) -> bool
    ensures fresh { IsTrue result ↔ ((number < length marks.old) × (slice_index_or marks.old number false ≡ false)) }
    ensures marked { marks.new ≡ slice_set marks.old number true }
{
    if number < marks.len() {
        let fresh = !marks[number];
        marks[number] = true;
        fresh
    } else {
        false
    }
}
