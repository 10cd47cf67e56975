//! Reading the text of a map, a map file, and a sample file.
ghost use Rattle.std.specs.Prelude.{◌≡◌, ◌≤◌, ◌<◌, ◌^◌, length};
ghost use Rattle.pm_limits.specs.declared.TheConstants.{MAX_EDGES};
ghost use Rattle.pm_mapfile.specs.Answers.{IsMapTextAnswer, IsMapFileAnswer, IsSampleFileAnswer};
ghost use Rattle.pm_mapfile.specs.steps.Rotation.{TellsLines, IsTextAnswer, vertices_of_lines};

use crate::file::{ReadFile, read_map_lines};
use crate::read::{ReadText, read_map_text};
use crate::refusal::FileRefusal;
use crate::rotation::rotation_of_lines;
use pm_lists::NumList;
use pm_map::{MapRefusal, RootedMap};
use std::alloc::Global;

/// Reads the text of a map at the prefix of `bytes`, where the map has at most `limit` edges, and answers the map and the
/// place after the line `end`, counted in bytes from the start. Anything may follow. It takes time and memory linear in
/// the bytes.
///
/// # Errors
///
/// `Text` exactly where `bytes` does not begin with a map text, with the first line that breaks that form. Else `Map`,
/// with the first rule that fails, in this order: `TooMany` where there are more than `limit` edges; `NotPermutation` where
/// some dart stands on no line, with the least such dart; `NotConnected` and `Genus` as [`RootedMap::from_parts`] says.
/// `Memory` where memory runs out.
pub fn read_map(alloc: Global, bytes: &[u8], limit: u32) -> Result<(RootedMap, usize), FileRefusal>
    requires limit { limit ≤ MAX_EDGES }
    requires bytes { length bytes.now < 2 ^ 32 }
    ensures { IsMapTextAnswer bytes.now limit result }
{
    let text = match read_map_text(alloc, bytes) {
        Ok(text) => text,
        Err(refusal) => return Err(FileRefusal::of_text(refusal)),
    };
    match map_of_text(alloc, &text, limit) {
        Ok(map) => Ok((map, text.after)),
        Err(refusal) => Err(FileRefusal::of_map(refusal)),
    }
}

/// Reads a map file, the text of a map of at most `limit` edges, at most one residue line, and nothing more, and answers
/// the map and the numbers of the residue line, where there is one. It takes time and memory linear in the bytes.
///
/// # Errors
///
/// `Text` exactly where `bytes` is no map file, with the first line that breaks that form. Else `Map`, as [`read_map`]
/// says. `Memory` where memory runs out.
pub fn read_map_file(
    alloc: Global,
    bytes: &[u8],
    limit: u32,
) -> Result<(RootedMap, Option<NumList>), FileRefusal>
    requires limit { limit ≤ MAX_EDGES }
    requires bytes { length bytes.now < 2 ^ 32 }
    ensures { IsMapFileAnswer bytes.now limit result }
{
    let file = match read_map_lines(alloc, bytes) {
        Ok(file) => file,
        Err(refusal) => return Err(FileRefusal::of_text(refusal)),
    };
    match map_of_text(alloc, &file.text, limit) {
        Ok(map) => Ok((map, file.residue)),
        Err(refusal) => Err(FileRefusal::of_map(refusal)),
    }
}

/// Reads a map file with its residue line: the text of a map of at most `limit` edges, one residue line, and nothing more.
/// It answers the map and the numbers of the residue line. It takes time and memory linear in the bytes.
///
/// # Errors
///
/// `Text` exactly where `bytes` is no such file, with the first line that breaks that form; a residue line that is missing
/// breaks it at the line after `end`. Else `Map`, as [`read_map`] says. `Memory` where memory runs out.
pub fn read_sample_file(
    alloc: Global,
    bytes: &[u8],
    limit: u32,
) -> Result<(RootedMap, NumList), FileRefusal>
    requires limit { limit ≤ MAX_EDGES }
    requires bytes { length bytes.now < 2 ^ 32 }
    ensures { IsSampleFileAnswer bytes.now limit result }
{
    let ReadFile { text, residue } = match read_map_lines(alloc, bytes) {
        Ok(file) => file,
        Err(refusal) => return Err(FileRefusal::of_text(refusal)),
    };
    let Some(residue) = residue else {
        let line = text.sizes.len() as u32 + 3;
        return Err(FileRefusal::Text { line });
    };
    match map_of_text(alloc, &text, limit) {
        Ok(map) => Ok((map, residue)),
        Err(refusal) => Err(FileRefusal::of_map(refusal)),
    }
}

/// The map that the lines tell, where it has at most `limit` edges, or the first rule that they break.
fn map_of_text(alloc: Global, text: &ReadText, limit: u32) -> Result<RootedMap, MapRefusal>
    requires limit { limit ≤ MAX_EDGES }
    requires lines { TellsLines text.now.edges text.now.root text.now.darts.items text.now.sizes.items }
    ensures { IsTextAnswer text.now.edges text.now.root text.now.darts.items text.now.sizes.items limit result }
{
    if text.edges > u64::from(limit) {
        return Err(MapRefusal::TooMany { edges: text.edges });
    }
    match rotation_of_lines(alloc, &text.darts, &text.sizes) {
        Ok(sigma) => {
            let vertices = vertex_count(&text.sizes);
            RootedMap::from_rotation(alloc, sigma, text.root as u32, vertices)
        }
        Err(refusal) => Err(refusal),
    }
}

/// How many vertices the map of lines of these sizes has: one for each line, and one where there is no line.
fn vertex_count(sizes: &[usize]) -> u32
    requires { length sizes.now < 2 ^ 32 }
    ensures { result ≡ vertices_of_lines sizes.now }
{
    if sizes.is_empty() {
        1
    } else {
        sizes.len() as u32
    }
}
