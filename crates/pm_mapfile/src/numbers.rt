//! Lines of a tag and numbers.
ghost use Rattle.std.specs.Prelude.{ℕ, List, IsTrue, IfOk, MatchOption};
ghost use Rattle.pm_lists.specs.ListLine.{is_tag};
ghost use Rattle.pm_mapfile.specs.steps.Lines.{IsNumbersLine};

use pm_lists::{ListTextRefusal, NumList, read_list};
use std::alloc::{AllocError, Global};

/// The numbers of the line `text`, which is `tag` and numbers, each after one space, or `None` where the line is not.
pub(crate) fn read_numbers(
    alloc: Global,
    tag: &[u8],
    text: &[u8],
) -> Result<Option<NumList>, AllocError>
    requires { IsTrue (is_tag tag.now) }
    ensures { IfOk result (λ found. MatchOption found
        ((ns : List ℕ) → IsNumbersLine tag.now text.now ns → ⊥)
        (IsNumbersLine tag.now text.now)) }
{
    match read_list(alloc, tag, text) {
        Ok(numbers) => Ok(Some(numbers)),
        Err(ListTextRefusal::Text) => Ok(None),
        Err(ListTextRefusal::Memory) => Err(AllocError),
    }
}
