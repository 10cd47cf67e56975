ghost use Rattle.std.specs.Prelude.{◌≡◌, ◌*◌, ◌≤◌, ◌++◌, codes, length, sum, IfOk, OnOk, OnErr};
ghost use Rattle.pm_lists.specs.Numbers.{spaced_numbers};
ghost use Rattle.pm_mapfile.specs.MapText.{map_line, vertex_line, vertex_lines, vertices_text, HasCanonicalText, HasOneText, IsMapText, AppendsMapText};
ghost use Rattle.pm_mapfile.specs.steps.Printed.{cut};

use itoa::write_digits;
use pm_canon::{canonical_vertex_list, vertex_list};
use pm_map::RootedMap;
use pm_text::put_spaced_number;
use std::alloc::{AllocError, Global};

/// So many darts of a line are put at once.
const PIECE_DARTS: usize = 64;
/// A dart has at most ten digits, and a space before them.
const PIECE_BYTES: usize = 704;

/// Appends the text of `map` to `text`: its darts as they are numbered, its vertices in the order in which they are met
/// from the root.
///
/// # Errors
///
/// Where memory runs out; `text` is then as before.
pub fn put_map(alloc: Global, map: &RootedMap, text: &mut Vec<u8>) -> Result<(), AllocError>
    ensures ok { OnOk result (AppendsMapText map.now text.old.items text.new.items) }
    ensures err { OnErr result (text.new.items ≡ text.old.items) }
{
    let bytes = map_bytes(alloc, map)?;
    text.extend_from_slice(&bytes)
}

/// A law: a map has one text, the one that [`put_map`] appends.
pub fn map_has_one_text()
    ensures { HasOneText }
{}

/// The text of `map`, as [`put_map`] appends it.
///
/// # Errors
///
/// Where memory runs out.
pub fn map_bytes(alloc: Global, map: &RootedMap) -> Result<Vec<u8>, AllocError>
    ensures { IfOk result (λ bytes. IsMapText map.now bytes.items) }
{
    let list = vertex_list(alloc, map)?;
    list_bytes(alloc, map.edges(), map.root(), &list.darts, &list.sizes)
}

/// The text of the canonical map that is the same as `map`. The canonical map itself isn't made.
///
/// # Errors
///
/// Where memory runs out.
pub fn canonical_bytes(alloc: Global, map: &RootedMap) -> Result<Vec<u8>, AllocError>
    ensures { IfOk result (λ bytes. HasCanonicalText map.now bytes.items) }
{
    let list = canonical_vertex_list(alloc, map)?;
    list_bytes(alloc, map.edges(), 0, &list.darts, &list.sizes)
}

// The text of a map with this root, where `darts` are those of all vertices, one vertex after another, and `sizes` tell
// how many each has.
fn list_bytes(
    alloc: Global,
    edges: u32,
    root: u32,
    darts: &[u32],
    sizes: &[u32],
) -> Result<Vec<u8>, AllocError>
    requires { sum sizes.now ≡ length darts.now }
    ensures { IfOk result (λ bytes. bytes.items ≡ vertices_text edges root (cut sizes.now darts.now) ++ codes "end\n") }
{
    // Most darts take no more than eight bytes, with their space and their share of the other bytes of a line.
    let mut text = Vec::with_capacity(alloc, 16 * edges as usize + 64)?;
    put_vertices_text(alloc, edges, root, darts, sizes, &mut text)?;
    text.extend_from_slice(b"end\n")?;
    Ok(text)
}

// Appends the first line and the lines of all vertices, told as above.
pub(crate) fn put_vertices_text(
    alloc: Global,
    edges: u32,
    root: u32,
    darts: &[u32],
    sizes: &[u32],
    text: &mut Vec<u8>,
) -> Result<(), AllocError>
    requires { sum sizes.now ≡ length darts.now }
    ensures { OnOk result (text.new.items ≡ text.old.items ++ vertices_text edges root (cut sizes.now darts.now)) }
{
    put_first_line(alloc, edges, root, text)?;
    put_vertices(alloc, darts, sizes, text)
}

/// Appends the line of the number of edges and the root.
fn put_first_line(
    alloc: Global,
    edges: u32,
    root: u32,
    text: &mut Vec<u8>,
) -> Result<(), AllocError>
    ensures { OnOk result (text.new.items ≡ text.old.items ++ map_line edges root) }
{
    text.extend_from_slice(b"map")?;
    put_spaced_number(alloc, u64::from(edges), text)?;
    put_spaced_number(alloc, u64::from(root), text)?;
    text.push(b'\n')?;
    Ok(())
}

/// Appends the lines of all vertices.
fn put_vertices(
    alloc: Global,
    darts: &[u32],
    sizes: &[u32],
    text: &mut Vec<u8>,
) -> Result<(), AllocError>
    requires { sum sizes.now ≡ length darts.now }
    ensures { OnOk result (text.new.items ≡ text.old.items ++ vertex_lines (cut sizes.now darts.now)) }
{
    let mut piece = vec![in alloc; 0u8; PIECE_BYTES]?;
    let mut start = 0;
    'lines: for size in sizes {
        let end = start + *size as usize;
        put_vertex(&darts[start..end], &mut piece, text)?;
        start = end;
    }
    Ok(())
}

/// Appends the line of the vertex of these darts, by way of `piece`.
fn put_vertex(vertex: &[u32], piece: &mut [u8], text: &mut Vec<u8>) -> Result<(), AllocError>
    requires { length piece.old ≡ PIECE_BYTES }
    ensures { OnOk result (text.new.items ≡ text.old.items ++ vertex_line vertex.now) }
{
    text.push(b'v')?;
    let mut start = 0;
    'pieces: while start < vertex.len() {
        let end = start + PIECE_DARTS.min(vertex.len() - start);
        put_darts(&vertex[start..end], piece, text)?;
        start = end;
    }
    text.push(b'\n')?;
    Ok(())
}

/// Appends a space and the spelling of each dart. They are written to the end of `piece` first, the last one first.
fn put_darts(darts: &[u32], piece: &mut [u8], text: &mut Vec<u8>) -> Result<(), AllocError>
    requires { 11 * length darts.now ≤ length piece.old }
    ensures { OnOk result (text.new.items ≡ text.old.items ++ spaced_numbers darts.now) }
{
    let mut start = piece.len();
    let mut left = darts.len();
    'darts: while left > 0 {
        left -= 1;
        start = write_digits(u64::from(darts[left]), piece, start) - 1;
        piece[start] = b' ';
    }
    text.extend_from_slice(&piece[start..])
}
