//! Map texts of version 2, which name a class and the twins.
ghost use Rattle.std.specs.Prelude.{◌≡◌, ℕ, ◌*◌, ◌<◌, ◌≤◌, ◌^◌, ◌∷◌, ◌++◌, codes, length, IfOk, OnOk, OnErr};
ghost use Rattle.pm_mapfile.specs.ClassText.{class_line, class_text, HasSomePair};
ghost use Rattle.pm_mapfile.specs.ProfileText.{pair_text, profile_text};
ghost use Rattle.pm_mapfile.specs.TwinText.{edge_twins, twin_line, twin_lines, AppendsTextWithTwins, HasOneTextWithTwins, IsTextWithTwins};

use crate::class_line::ClassLine;
use crate::write::put_vertices_text;
use pm_canon::vertex_list;
use pm_map::RootedMap;
use pm_text::{put_number, put_spaced_number};
use std::alloc::{AllocError, Global};

/// Appends the text of `map` in version 2 to `text`, with this class line: its darts as they are numbered, its vertices in
/// the order in which they are met from the root, its edges in the order of their darts. A list of pairs in `class` has a
/// pair at least. Whether the map is in the class is not looked at.
///
/// # Errors
///
/// Where memory runs out; `text` is then as before.
pub fn put_map2(
    alloc: Global,
    map: &RootedMap,
    class: &ClassLine,
    text: &mut Vec<u8>,
) -> Result<(), AllocError>
    requires { HasSomePair class.now }
    ensures ok { OnOk result (AppendsTextWithTwins map.now class.now text.old.items text.new.items) }
    ensures err { OnErr result (text.new.items ≡ text.old.items) }
{
    let bytes = bytes_with_twins(alloc, map, class)?;
    text.extend_from_slice(&bytes)
}

/// A law: a map and a class line have one text in version 2, the one that [`put_map2`] appends.
pub fn map_has_one_text_with_twins()
    ensures { HasOneTextWithTwins }
{}

// The text of `map` in version 2.
fn bytes_with_twins(
    alloc: Global,
    map: &RootedMap,
    class: &ClassLine,
) -> Result<Vec<u8>, AllocError>
    ensures { IfOk result (λ bytes. IsTextWithTwins map.now class.now bytes.items) }
{
    let list = vertex_list(alloc, map)?;
    let edges = map.edges();
    // Most darts take no more than sixteen bytes, on both lines that they stand on.
    let mut text = Vec::with_capacity(alloc, 32 * edges as usize + 64)?;
    text.extend_from_slice(b"planarmap 2\n")?;
    put_class_line(alloc, class, &mut text)?;
    put_vertices_text(
        alloc,
        edges,
        map.root(),
        &list.darts,
        &list.sizes,
        &mut text,
    )?;
    put_twins(alloc, edges, &mut text)?;
    text.extend_from_slice(b"end\n")?;
    Ok(text)
}

// Appends the class line.
fn put_class_line(alloc: Global, class: &ClassLine, text: &mut Vec<u8>) -> Result<(), AllocError>
    ensures { OnOk result (text.new.items ≡ text.old.items ++ class_line class.now) }
{
    text.extend_from_slice(b"class ")?;
    put_class(alloc, class, text)?;
    text.push(b'\n')?;
    Ok(())
}

// Appends the class and the size.
fn put_class(alloc: Global, class: &ClassLine, text: &mut Vec<u8>) -> Result<(), AllocError>
    ensures { OnOk result (text.new.items ≡ text.old.items ++ class_text class.now) }
{
    match class {
        ClassLine::Unnamed => text.extend_from_slice(b"none"),
        ClassLine::Quartic(size) => {
            text.extend_from_slice(b"quartic ")?;
            put_number(alloc, *size, text)
        }
        ClassLine::General(size) => {
            text.extend_from_slice(b"general ")?;
            put_number(alloc, *size, text)
        }
        ClassLine::Tri(size) => {
            text.extend_from_slice(b"tri ")?;
            put_number(alloc, *size, text)
        }
        ClassLine::Eulerian(pairs) => {
            text.extend_from_slice(b"eulerian ")?;
            put_pairs(alloc, pairs.pairs(), text)
        }
        ClassLine::Bipartite(pairs) => {
            text.extend_from_slice(b"bipartite ")?;
            put_pairs(alloc, pairs.pairs(), text)
        }
    }
}

// Appends the pairs, with single commas between.
fn put_pairs(alloc: Global, pairs: &[(u64, u64)], text: &mut Vec<u8>) -> Result<(), AllocError>
    ensures { OnOk result (text.new.items ≡ text.old.items ++ profile_text pairs.now) }
{
    'pairs: for place in 0..pairs.len() {
        if place > 0 {
            text.push(b',')?;
        }
        put_pair(alloc, pairs[place], text)?;
    }
    Ok(())
}

// Appends the pair, with a colon between its numbers.
fn put_pair(alloc: Global, pair: (u64, u64), text: &mut Vec<u8>) -> Result<(), AllocError>
    ensures { OnOk result (text.new.items ≡ text.old.items ++ pair_text pair) }
{
    put_number(alloc, pair.0, text)?;
    text.push(b':')?;
    put_number(alloc, pair.1, text)
}

// Appends the lines of the twins of so many edges.
fn put_twins(alloc: Global, edges: u32, text: &mut Vec<u8>) -> Result<(), AllocError>
    ensures { OnOk result (text.new.items ≡ text.old.items ++ twin_lines (edge_twins edges)) }
{
    'edges: for edge in 0..u64::from(edges) {
        put_twin_line(alloc, 2 * edge, 2 * edge + 1, text)?;
    }
    Ok(())
}

// Appends the line of these two darts.
fn put_twin_line(alloc: Global, one: u64, other: u64, text: &mut Vec<u8>) -> Result<(), AllocError>
    ensures { OnOk result (text.new.items ≡ text.old.items ++ twin_line (one, other)) }
{
    text.push(b't')?;
    put_spaced_number(alloc, one, text)?;
    put_spaced_number(alloc, other, text)?;
    text.push(b'\n')?;
    Ok(())
}
