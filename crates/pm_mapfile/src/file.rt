//! Map files: the text of a map, and a residue line after it.
ghost use Rattle.std.specs.Prelude.{◌≡◌, ◌<◌, ◌^◌, List, length};
ghost use Rattle.pm_mapfile.specs.steps.ReadText.{IsResidueAnswer};
ghost use Rattle.pm_mapfile.specs.steps.ReadFile.{IsReadFileAnswer};

use crate::numbers::read_numbers;
use crate::read::{ReadText, TextRefusal, next_ended, read_map_text};
use pm_lists::NumList;
use pm_text::Lines;
use std::alloc::Global;

/// What a map file says.
#[derive(Drop)]
pub(crate) struct ReadFile {
    /// The text of the map.
    pub text: ReadText,
    /// The numbers of the residue line, where there is one.
    pub residue: Option<NumList>,
}

/// Reads a map file: the text of a map, then at most one residue line, and nothing more.
///
/// # Errors
///
/// `Text` exactly where `bytes` is no map file, with the first line that breaks the form; `Memory` where memory runs out.
pub(crate) fn read_map_lines(alloc: Global, bytes: &[u8]) -> Result<ReadFile, TextRefusal>
    requires { length bytes.now < 2 ^ 32 }
    ensures { IsReadFileAnswer bytes.now result }
{
    let text = match read_map_text(alloc, bytes) {
        Ok(text) => text,
        Err(refusal) => return Err(refusal),
    };
    match read_residue(alloc, &bytes[text.after..]) {
        Ok(residue) => Ok(ReadFile { text, residue }),
        Err(TextRefusal::Memory) => Err(TextRefusal::Memory),
        Err(TextRefusal::Text { line }) => Err(TextRefusal::Text {
            line: text.sizes.len() as u32 + 2 + line,
        }),
    }
}

// The numbers of the residue line that is all of `bytes`, or `None` where there are no bytes. Lines are counted from
// the first of `bytes`.
fn read_residue(alloc: Global, bytes: &[u8]) -> Result<Option<NumList>, TextRefusal>
    ensures { IsResidueAnswer bytes.now result }
{
    if bytes.is_empty() {
        return Ok(None);
    }
    let mut lines = Lines::new(bytes);
    let Some(line) = next_ended(&mut lines) else {
        return Err(TextRefusal::Text { line: 1 });
    };
    let Some(numbers) = read_numbers(alloc, b"residue", line.text)? else {
        return Err(TextRefusal::Text { line: 1 });
    };
    if lines.next().is_some() {
        return Err(TextRefusal::Text { line: 2 });
    }
    Ok(Some(numbers))
}
