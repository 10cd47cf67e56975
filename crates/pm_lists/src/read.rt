//! Reading a list from a line.
ghost use Rattle.std.specs.Prelude.{◌≡◌, ◌≢◌, IsTrue, ℕ, ◌++◌, ◌∷◌, [], List, IfOk, IfErr, OnOk};
ghost use Rattle.pm_lists.specs.ListLine.{AreWords, SpellsList, is_tag};
ghost use Rattle.pm_lists.specs.Numbers.{spaced_numbers};

use crate::num_list::NumList;
use pm_text::leading_number;
use std::alloc::{AllocError, Global};

/// Why no list is read from a line.
#[derive(Clone, Copy, Debug, PartialEq, Eq)]
pub enum ListTextRefusal {
    /// Memory is wanting. It may come at any line.
    Memory,
    /// The line is not the tag and then numbers, each after one space.
    Text,
}

impl From<AllocError> for ListTextRefusal {
    ghost use Rattle.std.specs.Prelude.{◌≡◌};
    ghost use Rattle.pm_lists.specs.declared.read.ListTextRefusal.TheVariants.{Memory};

    ghost from_gives = { λ _ refusal. refusal ≡ Memory };

    fn from(_error: AllocError) -> ListTextRefusal {
        ListTextRefusal::Memory
    }
}

/// The list that the line spells. The line is given without its newline.
///
/// # Errors
///
/// [`ListTextRefusal::Text`] exactly where the line is not the tag followed by any number of numbers,
/// each after one space. [`ListTextRefusal::Memory`] where memory runs out.
pub fn read_list(alloc: Global, tag: &[u8], line: &[u8]) -> Result<NumList, ListTextRefusal>
    requires { IsTrue (is_tag tag.now) }
    ensures ok { IfOk result (SpellsList tag.now line.now) }
    ensures text { IfErr result (λ refusal. refusal ≡ ListTextRefusal.Text
        → (values : List ℕ) → ¬ SpellsList tag.now line.now values) }
{
    let Some(numbers) = line.strip_prefix(tag) else {
        return Err(ListTextRefusal::Text);
    };
    let values = read_numbers(alloc, numbers)?;
    Ok(NumList::of(values))
}

/// The numbers that the bytes spell, each after one space.
fn read_numbers(alloc: Global, bytes: &[u8]) -> Result<Vec<u64>, ListTextRefusal>
    ensures words { IfOk result (λ values. AreWords values.items) }
    ensures ok { IfOk result (λ values. bytes.now ≡ spaced_numbers values.items) }
    ensures text { IfErr result (λ refusal. refusal ≡ ListTextRefusal.Text
        → (values : List ℕ) → AreWords values → bytes.now ≢ spaced_numbers values) }
{
    // Each number takes two bytes or more.
    let mut values = Vec::with_capacity(alloc, bytes.len() / 2)?;
    let mut place = 0;
    'numbers: while place < bytes.len() {
        if bytes[place] != b' ' {
            return Err(ListTextRefusal::Text);
        }
        let Some(number) = leading_number(&bytes[place + 1..]) else {
            return Err(ListTextRefusal::Text);
        };
        push_value(&mut values, number.value)?;
        place += 1 + number.length;
    }
    Ok(values)
}

/// Appends the value.
fn push_value(values: &mut Vec<u64>, value: u64) -> Result<(), AllocError>
    ensures { OnOk result (values.new.items ≡ values.old.items ++ value ∷ []) }
{
    values.push(value)?;
    Ok(())
}
