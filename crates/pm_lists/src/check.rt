//! Whether a list is valid for its bounds.
ghost use Rattle.std.specs.Prelude.{◌↔◌, IsOk, IfErr};
ghost use Rattle.pm_lists.specs.Refusal.{IsRefusalOf};
ghost use Rattle.pm_lists.specs.Valid.{IsValidList};

use crate::bounds::Bounds;

/// Why a list is not valid for its bounds.
#[derive(Clone, Copy, Debug, PartialEq, Eq)]
pub enum ListRefusal {
    /// The list has `have` entries, and there are `want` bounds.
    Length { want: u64, have: u64 },
    /// There are as many entries as bounds, and the first entry that is not below its bound is `value`, at
    /// `place`, counted from 0, where the bound is `bound`.
    Entry { place: u64, value: u64, bound: u64 },
}

/// Whether the list is valid for the bounds: as long as they are, and each entry below the bound at its
/// place.
///
/// # Errors
///
/// [`ListRefusal::Length`] exactly where the lengths differ, and else [`ListRefusal::Entry`] exactly
/// where an entry is not below its bound, with the first such place.
pub fn check_list(values: &[u64], bounds: &Bounds) -> Result<(), ListRefusal>
    ensures ok { IsOk result ↔ IsValidList values.now bounds.now }
    ensures refusal { IfErr result (IsRefusalOf values.now bounds.now) }
{
    let limits = bounds.values();
    if values.len() != limits.len() {
        return Err(ListRefusal::Length {
            want: limits.len() as u64,
            have: values.len() as u64,
        });
    }
    for (place, value) in values.iter().enumerate() {
        let bound = limits[place];
        if *value >= bound {
            return Err(ListRefusal::Entry {
                place: place as u64,
                value: *value,
                bound,
            });
        }
    }
    Ok(())
}
