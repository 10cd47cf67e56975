//! Files beyond the limits, and large ones.
ghost use Rattle.std.specs.Prelude.{◌<◌, ◌^◌};

use crate::tests::{Faults, run_on};
use pm_cli::run;
use pm_io::{Failed, MemSink, Source};
use pm_text::put_number;
use std::alloc::{AllocError, Global};
use std::process::Abort;
use std::test::Fail;

// Appends the line of a vertex.
fn put_vertex(alloc: Global, darts: &[u32], text: &mut Vec<u8>) -> Result<(), AllocError> {
    text.push(b'v')?;
    for dart in darts {
        text.push(b' ')?;
        put_number(alloc, u64::from(*dart), text)?;
    }
    text.push(b'\n')?;
    Ok(())
}

// The first line of so many edges, with dart 0 as the root.
fn first_line(alloc: Global, edges: u32) -> Result<Vec<u8>, AllocError> {
    let mut text = Vec::new(alloc);
    text.extend_from_slice(b"map ")?;
    put_number(alloc, u64::from(edges), &mut text)?;
    text.extend_from_slice(b" 0\n")?;
    Ok(text)
}

// The text of so many edges, none of which touches another.
fn single_edges(alloc: Global, edges: u32) -> Result<Vec<u8>, AllocError> {
    let mut text = first_line(alloc, edges)?;
    for dart in 0..2 * u64::from(edges) {
        text.extend_from_slice(b"v ")?;
        put_number(alloc, dart, &mut text)?;
        text.push(b'\n')?;
    }
    text.extend_from_slice(b"end\n")?;
    Ok(text)
}

// The text of so many edges with dart 0 at each place, which is no permutation.
fn repeated_dart(alloc: Global, edges: u32) -> Result<Vec<u8>, AllocError> {
    let mut text = first_line(alloc, edges)?;
    text.push(b'v')?;
    for _place in 0..2 * u64::from(edges) {
        text.extend_from_slice(b" 0")?;
    }
    text.extend_from_slice(b"\nend\n")?;
    Ok(text)
}

// A ring of so many edges, and one edge more that hangs on its last vertex but one.
fn ring_with_tail(alloc: Global, edges: u32) -> Result<Vec<u8>, AllocError>
    requires { edges < 2 ^ 30 }
{
    let darts = 2 * edges;
    let mut text = first_line(alloc, edges + 1)?;
    put_vertex(alloc, &[0, darts.saturating_sub(1)], &mut text)?;
    for place in 1..edges {
        if place + 1 < edges {
            put_vertex(alloc, &[2 * place - 1, 2 * place], &mut text)?;
        } else {
            put_vertex(alloc, &[2 * place - 1, 2 * place, darts], &mut text)?;
        }
    }
    put_vertex(alloc, &[darts + 1], &mut text)?;
    text.extend_from_slice(b"end\n")?;
    Ok(text)
}

// The file of a word of so many letters, all alike.
fn alike(alloc: Global, letter: u8, count: u32) -> Result<Vec<u8>, AllocError> {
    let mut text = Vec::new(alloc);
    text.extend_from_slice(b"tree ")?;
    for _place in 0..count {
        text.push(letter)?;
    }
    text.push(b'\n')?;
    Ok(text)
}

// The file of a balanced stem tree of two nodes more than so many, each the only child of the one above it.
fn nested_nodes(alloc: Global, inner: u32) -> Result<Vec<u8>, AllocError> {
    let mut text = Vec::new(alloc);
    text.extend_from_slice(b"tree ")?;
    for _node in 0..inner {
        text.extend_from_slice(b"(s")?;
    }
    text.extend_from_slice(b"(ss)")?;
    for _node in 0..inner {
        text.extend_from_slice(b"s)")?;
    }
    text.extend_from_slice(b"s\n")?;
    Ok(text)
}

// Large pieces, and room for large answers.
const QUICK: Faults = Faults {
    piece: 65_536,
    read: 0,
    out: 0,
    part: 0,
    err: 0,
    room: 10_000_000,
};

// What the command refuses the file with.
fn refused(
    rt: &impl Abort,
    alloc: Global,
    line: &str,
    bytes: &[u8],
    status: u8,
    want: &str,
) -> Result<(), Fail> {
    let run = run_on(rt, alloc, line, bytes, QUICK)?;
    assert_eq!(rt; run.status, status, "at {line}");
    assert_eq!(rt; run.err.bytes(), want.as_bytes());
    assert_eq!(rt; run.out.bytes(), b"".as_slice());
    Ok(())
}

// The limit is looked at before the permutation.
#[test]
fn more_edges_than_general_maps_have(rt: HostRuntime) -> Result<(), Fail> {
    let rows = [
        (2_097_152, 6, "planarmap: map permutation 1\n"),
        (2_097_153, 7, "planarmap: limit edges 2097153\n"),
    ];
    for (edges, status, want) in rows {
        let text = repeated_dart(rt.alloc(), edges)?;
        refused(&rt, rt.alloc(), "check general", &text, status, want)?;
        refused(&rt, rt.alloc(), "medial", &text, status, want)?;
    }
    Ok(())
}

#[test]
fn many_edges_apart(rt: HostRuntime) -> Result<(), Fail> {
    let text = single_edges(rt.alloc(), 524_289)?;
    let want = "planarmap: map connected 2\n";
    refused(&rt, rt.alloc(), "check general", &text, 6, want)
}

#[test]
fn more_letters_than_taken(rt: HostRuntime) -> Result<(), Fail> {
    let text = alike(rt.alloc(), b'l', 8_388_608)?;
    let want = "planarmap: limit letters 8388608\n";
    refused(&rt, rt.alloc(), "close eulerian", &text, 7, want)
}

#[test]
fn more_letters_than_a_stem_tree_has(rt: HostRuntime) -> Result<(), Fail> {
    let text = alike(rt.alloc(), b's', 5_592_402)?;
    let want = "planarmap: limit letters 5592402\n";
    refused(&rt, rt.alloc(), "close tri", &text, 7, want)
}

// A tree with 100,000 nodes, and as many levels, gives 100,002 vertices, 300,000 edges and 200,000 faces.
#[test]
fn deep_stem_tree(rt: HostRuntime) -> Result<(), Fail> {
    let text = nested_nodes(rt.alloc(), 99_998)?;
    let closed = run_on(&rt, rt.alloc(), "close tri", &text, QUICK)?;
    assert_eq!(rt; closed.status, 0);
    let counted = run_on(&rt, rt.alloc(), "check tri", closed.out.bytes(), QUICK)?;
    assert_eq!(rt;
        counted.out.bytes(),
        b"ok 100002 300000 200000\n".as_slice()
    );
    Ok(())
}

#[test]
fn bad_vertex_at_a_high_dart(rt: HostRuntime) -> Result<(), Fail> {
    let text = ring_with_tail(rt.alloc(), 100_000)?;
    let want = "planarmap: map vertex 199997\n";
    refused(&rt, rt.alloc(), "check eulerian", &text, 6, want)
}

// A source of so many bytes, which it makes as they are asked for.
#[derive(Drop)]
struct Zeros {
    left: usize,
}

impl Source for Zeros {
    ghost use Rattle.std.specs.Prelude.{None};
    ghost use Rattle.std.proofs.Common.{lit≤};

    ghost left = { λ _. None };

    ghost faults = { λ _. 0 };

    ghost bounded = { λ _. lit≤ tt };

    fn read(&mut self, buf: &mut [u8]) -> Result<usize, Failed> {
        let count = self.left.min(buf.len());
        self.left -= count;
        Ok(count)
    }
}

#[test]
fn more_bytes_than_read(rt: HostRuntime) -> Result<(), Fail> {
    let mut words = Vec::new(rt.alloc());
    words.push(String::from_str(rt.alloc(), "canon")?)?;
    let mut input = Zeros { left: 268_435_457 };
    let mut out = MemSink::new(rt.alloc(), 100, 0, Vec::new(rt.alloc()))?;
    let mut err = MemSink::new(rt.alloc(), 100, 0, Vec::new(rt.alloc()))?;
    assert_eq!(rt; run(rt.alloc(), &words, &mut input, &mut out, &mut err), 7);
    assert_eq!(rt; err.bytes(), b"planarmap: limit bytes\n".as_slice());
    Ok(())
}
