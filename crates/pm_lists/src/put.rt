//! Writing a list as a line.
ghost use Rattle.std.specs.Prelude.{◌≡◌, IsTrue, ◌*◌, ◌≤◌, ◌++◌, ◌∷◌, [], length, OnOk, is_ok, if◌then◌else◌};
ghost use Rattle.pm_lists.specs.ListLine.{AreWords, SpellsList, is_tag, list_line};
ghost use Rattle.pm_lists.specs.Numbers.{spaced_numbers};
ghost use Rattle.pm_lists.specs.steps.Numbers.{IsLonger};
ghost use Rattle.pm_text.specs.Broken.{HasNoNewline, newline};

use crate::num_list::NumList;
use itoa::write_digits;
use std::alloc::{AllocError, Global};

/// So many numbers of a line are put at once.
const PIECE_NUMBERS: usize = 64;
/// A number has at most twenty digits, and a space before them.
const PIECE_BYTES: usize = 1344;

/// Appends the line of the list to `text`: the tag, each number after one space, and a newline.
///
/// # Errors
///
/// Where memory runs out; `text` is then as before.
pub fn put_list(
    _alloc: Global,
    tag: &[u8],
    list: &NumList,
    text: &mut Vec<u8>,
) -> Result<(), AllocError>
    requires { IsTrue (is_tag tag.now) }
    ensures text { text.new.items
        ≡ (if is_ok result then text.old.items ++ (list_line tag.now list.now ++ newline ∷ []) else text.old.items) }

    // What is appended is one line, and is read as the same list.
    ensures one_line { HasNoNewline (list_line tag.now list.now) }
    ensures read_again { SpellsList tag.now (list_line tag.now list.now) list.now }
{
    let start = text.len();
    let put = put_line(tag, list.values(), text);
    if put.is_err() {
        text.truncate(start);
    }
    put
}

/// Appends the line of the numbers, with its newline; where memory runs out, a part of it may be appended.
fn put_line(tag: &[u8], values: &[u64], text: &mut Vec<u8>) -> Result<(), AllocError>
    ensures words { AreWords values.now }
    ensures line { OnOk result (text.new.items ≡ text.old.items ++ (list_line tag.now values.now ++ newline ∷ [])) }
    ensures longer { IsLonger text.old.items text.new.items }
{
    text.extend_from_slice(tag)?;
    let mut piece = [0u8; PIECE_BYTES];
    let mut start = 0;
    'pieces: while start < values.len() {
        let end = start + PIECE_NUMBERS.min(values.len() - start);
        put_numbers(&values[start..end], &mut piece, text)?;
        start = end;
    }
    text.push(b'\n')?;
    Ok(())
}

/// Appends a space and the spelling of each number. They are written to the end of `piece` first, the last one first.
fn put_numbers(values: &[u64], piece: &mut [u8], text: &mut Vec<u8>) -> Result<(), AllocError>
    requires { 21 * length values.now ≤ length piece.old }
    ensures { text.new.items ≡ (if is_ok result then text.old.items ++ spaced_numbers values.now else text.old.items) }
{
    let mut start = piece.len();
    let mut left = values.len();
    'numbers: while left > 0 {
        left -= 1;
        start = write_digits(values[left], piece, start) - 1;
        piece[start] = b' ';
    }
    text.extend_from_slice(&piece[start..])
}
