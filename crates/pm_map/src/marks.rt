ghost use Rattle.std.specs.Prelude.{◌≡◌, ◌<◌, ◌≤◌, ◌^◌, length, MatchOption};
ghost use Rattle.pm_perm.specs.Permutation.{IsPermutationList};
ghost use Rattle.pm_map.specs.steps.Marks.{AllMarked, NoneMarked, IsLeastUnmarked, MarksValues};
ghost use Rattle.pm_map.specs.Missing.{IsLeastMissing};

/// The least number that isn't marked, if there is one.
pub(crate) fn least_unmarked(marks: &[bool]) -> Option<u32>
    requires { length marks.now ≤ 2 ^ 32 }
    ensures { MatchOption result (AllMarked marks.now) (IsLeastUnmarked marks.now) }
{
    'scan: for place in 0..marks.len() {
        if !marks[place] {
            return Some(place as u32);
        }
    }
    None
}

/// The least number below the length that stands nowhere in the list, or none where the list is a permutation.
/// What it leaves in `marks` is free.
pub(crate) fn least_missing(values: &[u32], marks: &mut [bool]) -> Option<u32>
    requires size { length marks.old ≡ length values.now }
    requires few { length values.now ≤ 2 ^ 32 }
    ensures { MatchOption result (IsPermutationList values.now) (IsLeastMissing values.now) }
{
    clear(marks);
    mark_values(values, marks);
    least_unmarked(marks)
}

/// Takes all marks away.
pub(crate) fn clear(marks: &mut [bool])
    ensures { NoneMarked marks.new }
{
    'clear: for mark in marks.iter_mut() {
        *mark = false;
    }
}

/// Marks the values of the list, as far as the marks go. No number is marked before.
fn mark_values(values: &[u32], marks: &mut [bool])
    requires { NoneMarked marks.old }
    ensures { MarksValues values.now (length values.now) marks.new }
{
    'mark: for place in 0..values.len() {
        let value = values[place] as usize;
        if value < marks.len() {
            marks[value] = true;
        }
    }
}
