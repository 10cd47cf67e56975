//! The bounds of arrangement codes.
ghost use Rattle.std.specs.Prelude.{◌≡◌, ◌++◌, OnOk};
ghost use Rattle.pm_objects.specs.Codes.{code_bounds};

use std::alloc::AllocError;

/// Appends the bounds of an arrangement code of this length: its length, and one less for each entry.
///
/// # Errors
///
/// `AllocError` where memory runs out.
pub fn push_code_bounds(bounds: &mut Vec<u64>, length: u32) -> Result<(), AllocError>
    ensures { OnOk result (bounds.new.items ≡ bounds.old.items ++ code_bounds length) }
{
    for place in 0..length {
        bounds.push(u64::from(length - place))?;
    }
    Ok(())
}
