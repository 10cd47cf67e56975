//! The lines of a map text.
ghost use Rattle.std.specs.Prelude.{◌≡◌, ◌*◌, ◌<◌, ◌^◌, ℕ, true, length, IfOk, MatchOption};
ghost use Rattle.pm_lists.specs.steps.Numbers.{IsLonger};
ghost use Rattle.pm_text.specs.Broken.{HasNoNewline};
ghost use Rattle.pm_text.specs.Reading.{IsNextLine};
ghost use Rattle.pm_mapfile.specs.steps.Lines.{HasNoVertex, IsFirstText, ReadsDarts, ReadsVertex};
ghost use Rattle.pm_mapfile.specs.steps.ReadText.{IsReadTextAnswer};

use crate::numbers::read_numbers;
use pm_text::{Line, Lines, leading_number};
use std::alloc::{AllocError, Global};

/// Why bytes do not begin with the text of a map.
#[derive(Clone, Copy, Debug, PartialEq, Eq)]
pub(crate) enum TextRefusal {
    /// There is no memory left. It may come at any bytes.
    Memory,
    /// The first line that breaks the form, counted from 1.
    Text { line: u32 },
}

impl From<AllocError> for TextRefusal {
    ghost use Rattle.pm_mapfile.specs.declared.read.TextRefusal.TheVariants.{Memory};

    ghost from_gives = { λ _ refusal. refusal ≡ Memory };

    fn from(_error: AllocError) -> TextRefusal {
        TextRefusal::Memory
    }
}

/// What the text of a map says, line by line. Whether it makes a map is not known.
#[derive(Drop)]
pub(crate) struct ReadText {
    /// The number of edges.
    pub edges: u64,
    /// The root dart, below twice the number of edges, or 0 where there is none.
    pub root: u64,
    /// The darts of all vertices, one vertex after another: twice as many as edges, each below that.
    pub darts: Vec<u64>,
    /// How many darts each vertex has, at least one.
    pub sizes: Vec<usize>,
    /// The place after the line `end`, counted in bytes from the start.
    pub after: usize,
}

// The numbers of a first line.
#[derive(Clone, Copy)]
struct FirstLine {
    edges: u64,
    root: u64,
}

/// Reads the text of a map at the prefix of `bytes`.
///
/// # Errors
///
/// `Text` exactly where `bytes` does not begin with the text of a map, with the first line that breaks the form;
/// `Memory` where memory runs out.
pub(crate) fn read_map_text(alloc: Global, bytes: &[u8]) -> Result<ReadText, TextRefusal>
    requires { length bytes.now < 2 ^ 32 }
    ensures { IsReadTextAnswer bytes.now result }
{
    let mut lines = Lines::new(bytes);
    let Some(line) = next_ended(&mut lines) else {
        return Err(TextRefusal::Text { line: 1 });
    };
    let Some(first) = read_first(alloc, line.text)? else {
        return Err(TextRefusal::Text { line: 1 });
    };
    let mut darts = Vec::new(alloc);
    let mut sizes = Vec::new(alloc);
    'lines: while let Some(count) = read_vertex(
        lines.rest(),
        first.edges,
        &mut darts,
        &mut sizes,
    )? {
        lines.skip(count);
    }
    let refusal = TextRefusal::Text {
        line: sizes.len() as u32 + 2,
    };
    let Some(last) = next_ended(&mut lines) else {
        return Err(refusal);
    };
    let is_end = last.text == b"end".as_slice();
    if !is_end || darts.len() as u128 != 2 * u128::from(first.edges) {
        return Err(refusal);
    }
    Ok(ReadText {
        edges: first.edges,
        root: first.root,
        darts,
        sizes,
        after: last.after,
    })
}

// The next line, or `None` where no line is left that ends.
pub(crate) fn next_ended<'a>(lines: &mut Lines<'a>) -> Option<Line<'a>>
    ensures { MatchOption result (HasNoNewline lines.old.rest)
        (λ line. IsNextLine lines.old lines.new line.text.now true line.after) }
{
    let line = lines.next()?;
    if line.ended { Some(line) } else { None }
}

// The numbers of the first line of a map text, or `None` where the line is no such line.
fn read_first(alloc: Global, text: &[u8]) -> Result<Option<FirstLine>, AllocError>
    ensures { IfOk result (λ first. MatchOption first
        ((edges root : ℕ) → IsFirstText text.now edges root → ⊥)
        (λ line. IsFirstText text.now line.edges line.root)) }
{
    let Some(numbers) = read_numbers(alloc, b"map", text)? else {
        return Ok(None);
    };
    let values = numbers.values();
    if values.len() != 2 {
        return Ok(None);
    }
    let (edges, root) = (values[0], values[1]);
    let is_root = if edges == 0 {
        root == 0
    } else {
        u128::from(root) < 2 * u128::from(edges)
    };
    if is_root {
        Ok(Some(FirstLine { edges, root }))
    } else {
        Ok(None)
    }
}

// Appends the darts of the line of a vertex at the prefix of `bytes`, and how many they are, where there is room for so many
// among the darts of so many edges, and answers how many bytes the line has; or answers `None` exactly where no such line
// stands there or there is no room, and appends nothing.
fn read_vertex(
    bytes: &[u8],
    edges: u64,
    darts: &mut Vec<u64>,
    sizes: &mut Vec<usize>,
) -> Result<Option<usize>, AllocError>
    ensures { IfOk result (λ found. MatchOption found
        (HasNoVertex (2 * edges) bytes.now darts.old.items × (darts.new.items ≡ darts.old.items) × (sizes.new.items ≡ sizes.old.items))
        (λ count. ReadsVertex (2 * edges) bytes.now count darts.old.items darts.new.items sizes.old.items sizes.new.items)) }
{
    let start = darts.len();
    let Some(count) = push_darts(bytes, edges, darts)? else {
        darts.truncate(start);
        return Ok(None);
    };
    sizes.push(darts.len() - start)?;
    Ok(Some(count))
}

// Appends the darts of the line at the prefix of `bytes`, as above; where it answers `None` it may have appended some.
fn push_darts(bytes: &[u8], edges: u64, darts: &mut Vec<u64>) -> Result<Option<usize>, AllocError>
    ensures { IfOk result (λ found. MatchOption found
        (HasNoVertex (2 * edges) bytes.now darts.old.items × IsLonger darts.old.items darts.new.items)
        (λ count. ReadsDarts (2 * edges) bytes.now count darts.old.items darts.new.items)) }
{
    if bytes.is_empty() || bytes[0] != b'v' {
        return Ok(None);
    }
    let mut place: usize = 1;
    'darts: while place < bytes.len() && bytes[place] == b' ' {
        let Some(dart) = leading_number(&bytes[place + 1..]) else {
            return Ok(None);
        };
        // Halves are compared, since twice the number of edges may need more bits.
        if dart.value / 2 >= edges || darts.len() as u64 / 2 >= edges {
            return Ok(None);
        }
        darts.push(dart.value)?;
        place += 1 + dart.length;
    }
    if place == 1 || place >= bytes.len() || bytes[place] != b'\n' {
        return Ok(None);
    }
    Ok(Some(place + 1))
}
