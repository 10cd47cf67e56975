//! Runs over streams in memory. The bytes were worked out apart from the code.
use pm_cli::{
    opening_undoes_closing, run, sampling_undoes_unsampling, words_and_bytes_have_one_answer,
};
use pm_io::{MemSink, MemSource};
use std::alloc::{AllocError, Global};
use std::process::Abort;
use std::test::Fail;

// The streams after a run, and its status.
#[derive(Drop)]
pub(crate) struct Run {
    pub status: u8,
    pub out: MemSink,
    pub err: MemSink,
}

// How many bytes a read gives, the calls that fail, what a failing write of the output keeps, and how many bytes the
// output takes.
#[derive(Clone, Copy)]
pub(crate) struct Faults {
    pub piece: u32,
    pub read: u32,
    pub out: u32,
    pub part: u32,
    pub err: u32,
    pub room: u32,
}

pub(crate) const NONE: Faults = Faults {
    piece: 4,
    read: 0,
    out: 0,
    part: 0,
    err: 0,
    room: 1_000_000,
};

pub(crate) fn run_on(
    rt: &impl Abort,
    alloc: Global,
    line: &str,
    bytes: &[u8],
    faults: Faults,
) -> Result<Run, AllocError> {
    let mut words = Vec::new(alloc);
    for word in line.split(' ') {
        // No words at all are written as an empty line.
        if !line.is_empty() {
            words.push(String::from_str(alloc, word)?)?;
        }
    }
    assert!(rt; words.len() < 100 && faults.piece > 0);
    let mut input = MemSource::new(
        Vec::from_slice(alloc, bytes)?,
        faults.piece,
        vec![in alloc; faults.read]?,
    );
    let mut out = MemSink::new(alloc, faults.room, faults.part, vec![in alloc; faults.out]?)?;
    let mut err = MemSink::new(alloc, 1000, 0, vec![in alloc; faults.err]?)?;
    let status = run(alloc, &words, &mut input, &mut out, &mut err);
    Ok(Run { status, out, err })
}

// Rows: the words, the input, the status, and the answer or what the line of standard error tells. `/` is a newline.
const WORDS: &str = "\
||2|usage 0
closes||2|usage 0
";

const CLOSE: &str = "\
close||2|usage 1
close quartic||2|usage 1
close eulerian|tree lbl/|0|map 2 0/v 0 1 2 3/end/
close eulerian|tree bll/|0|map 2 0/v 0 2 3 1/end/
close eulerian|tree b(bll)l/|0|map 4 0/v 0 2 4 1/v 3 5 6 7/end/
close eulerian x|tree lbl/|2|usage 2
close eulerian||3|text 1
close eulerian|tree lbl|3|text 1
close eulerian|tree l(/|3|text 1
close eulerian|tree lll/tree lbl/|3|text 2
close eulerian|tree llb/|12|tree matched 3
close eulerian|tree ll/|12|tree degree 0
close eulerian|tree b(ll)l/|12|tree degree 2
close eulerian|tree lll/|12|tree buds 0
close tri|tree s/|0|map 3 0/v 0 2/v 1 4/v 3 5/end/
close tri|tree (ss)s/|0|map 6 0/v 0 2 4/v 1 6 8/v 3 9 10/v 5 11 7/end/
close tri|tree (ss(ss))s/|0|map 9 0/v 0 2 4 6/v 1 8 10/v 3 11 12 14/v 5 15 16/v 7 17 13 9/end/
close tri|tree (ss((ss)ss))s/|0|map 12 0/v 0 2 4 6/v 1 8 10 12/v 3 13 14 16/v 5 17 18 20/v 7 21 22 9/v 11 23 19 15/end/
close tri x|tree s/|2|usage 2
close tri|tree lbl/|3|text 1
close tri|tree s)(/|3|text 1
close tri|tree (ss)s|3|text 1
close tri|tree s(ss)/tree s/|3|text 2
close tri|tree (ss)s/tree s/|3|text 2
close tri|tree ss/|12|tree stems 0
close tri|tree ((s)ss)s/|12|tree stems 2
close tri|tree ((ss)ss)s/|12|tree closes 2
close tri|tree s(ss)/|12|tree follows 4
";

const OPEN: &str = "\
open||2|usage 1
open quartic||2|usage 1
open eulerian 2:1||2|usage 2
open eulerian|tree lbl/|3|text 1
open eulerian|map 2 0/v 0 1 2 2/end/|6|map permutation 3
open eulerian|map 4 0/v 0 1 2 3/v 4 6 5 7/end/|6|map connected 4
open eulerian|map 2 0/v 0 2 1 3/end/|6|map euler 0
open eulerian|map 0 0/end/|6|map empty
open eulerian|map 1 0/v 0/v 1/end/|6|map vertex 0
open eulerian|map 2 0/v 0 2/v 1/v 3/end/|6|map vertex 1
open eulerian|map 1 0/v 0 1/end/|0|tree l/
open eulerian|map 2 0/v 0 1 2 3/end/|0|tree lbl/
open eulerian|map 4 0/v 0 2 4 1/v 3 5 6 7/end/|0|tree b(bll)l/
open eulerian|map 4 0/v 0 2 4 1/v 3 5 6 7/end/residue 9 9/|0|tree b(bll)l/
open eulerian|map 4 7/v 7 0 2 6/v 1 3 5 4/end/|0|tree b(bll)l/
";

const CANON: &str = "\
canon|map 4 7/v 7 0 2 6/v 1 3 5 4/end/residue 0 0 1 0/|0|map 4 0/v 0 2 4 1/v 3 5 6 7/end/
canon|map 0 0/end/|0|map 0 0/end/
canon|map 2 0/v 0 1 2 3/end/|0|map 2 0/v 0 1 2 3/end/
canon x||2|usage 1
canon|map 2 0/v 0 2 1 3/end/|6|map euler 0
";

const IMAGES: &str = "\
medial|map 1 0/v 0/v 1/end/|0|map 2 0/v 0 1 2 3/end/
medial|map 0 0/end/|6|map empty
medial|map 2 0/v 0 1 2 3|3|text 2
medial 2||2|usage 1
unmedial|map 2 0/v 0 1 2 3/end/|0|map 1 0/v 0/v 1/end/
unmedial|map 2 0/v 0 2 3 1/end/|0|map 1 0/v 0 1/end/
unmedial|map 1 0/v 0 1/end/|6|map vertex 0
unmedial|map 0 0/end/|6|map empty
dual|map 1 0/v 0/v 1/end/|0|map 1 0/v 0 1/end/
dual|map 1 0/v 0 1/end/residue 9/|0|map 1 0/v 0/v 1/end/
dual|map 0 0/end/|0|map 0 0/end/
dual x||2|usage 1
layers|map 4 7/v 7 0 2 6/v 1 3 5 4/end/residue 1/|0|map 4 0/v 0 2 4 1/v 3 5 6 7/end/layers 0 1 1 2 2 1 2 3/parents 0 1 1 3 3 1 3 7/
layers|map 1 0/v 0/v 1/end/|0|map 1 0/v 0/v 1/end/layers 0 0/parents 0 0/
layers|map 0 0/end/|0|map 0 0/end/layers/parents/
layers|map 1 1/v 0/v 1/end/x/|3|text 5
layers x||2|usage 1
";

const CHECK: &str = "\
check general|map 2 0/v 0 1 2 3/end/|0|ok 1 2 3/
check general|map 4 7/v 7 0 2 6/v 1 3 5 4/end/residue 0 0 1 0/|0|ok 2 4 4/
check general|map 0 0/end/|0|ok 1 0 1/
check general|map 1 1/v 0/v 1/end/residue/|0|ok 2 1 1/
check||2|usage 1
check quadratic||2|usage 1
check general 2||2|usage 2
check general||3|text 1
check general|map 2 0/v 0 1 2 3/|3|text 3
check general|map 02 0/|3|text 1
check general|map 2 0/v 0 1 2 4/end/|3|text 2
check general|map 2 0/v 0 1 2/end/|3|text 3
check general|map 2 0/v 0 1 2 3/v 0/end/|3|text 3
check general|map 0 1/end/|3|text 1
check general|map 0 0/v 0/end/|3|text 2
check general|map 1 2/v 0/v 1/end/|3|text 1
check general|map 18446744073709551616 0/end/|3|text 1
check general|map 9223372036854775808 0/v 4294967296/end/|3|text 3
check general|map 2 0/v 0 1 2 2/end/x/|3|text 4
check general|map 2 0/v/end/|3|text 2
check general|map 2 0/v 0 1 2 3 /end/|3|text 2
check general|map 2 0/v 0 1 2 3/end/residue 1/residue 1/|3|text 5
";

const CHECK_MORE: &str = "\
check general|map 2 0/v 0 1 2 2/end/|6|map permutation 3
check general|map 2 0/v 0 2 1 3/end/|6|map euler 0
check general|map 4 0/v 0 1 2 3/v 4 6 5 7/end/|6|map connected 4
check quartic|map 4 0/v 0 2 4 1/v 3 5 6 7/end/residue 0 0 1 0/|0|ok 2 4 4/
check quartic|map 2 0/v 0 1 2 3/end/|0|ok 1 2 3/
check quartic 1||2|usage 2
check quartic|map 2 0/v 0 2 1 3/end/|6|map euler 0
check quartic|map 4 0/v 0 1 2 3/v 4 6 5 7/end/|6|map connected 4
check quartic|map 1 0/v 0/v 1/end/|6|map vertex 0
check quartic|map 0 0/end/|6|map empty
check eulerian|map 3 0/v 0 2/v 1 3 4 5/end/residue 1 0 0 0 0 2/|0|ok 2 3 3/
check eulerian|map 7 0/v 0 2/v 1 3 4 6/v 5 8/v 7 10 12 13 11 9/end/residue 1 0 0 0 0 3 2 0 0 2/|0|ok 4 7 5/
check eulerian|map 4 7/v 7 0 2 6/v 1 3 5 4/end/|0|ok 2 4 4/
check eulerian|map 2 1/v 0 2/v 1 3/end/|0|ok 2 2 2/
check eulerian 2:1||2|usage 2
check eulerian||3|text 1
check eulerian|map 0 0/end/|6|map empty
check eulerian|map 2 0/v 0 2 1 3/end/|6|map euler 0
check eulerian|map 2 0/v 0 1 2 2/end/|6|map permutation 3
check eulerian|map 2 0/v 0 1/v 2 3/end/|6|map connected 2
check eulerian|map 2 0/v 0 1 2/v 3/end/|6|map vertex 0
check eulerian|map 2 0/v 1/v 0 2/v 3/end/|6|map vertex 1
check eulerian|map 33 0/v 0 1 2 3 4 5 6 7 8 9 10 11 12 13 14 15 16 17 18 19 20 21 22 23 24 25 26 27 28 29 30 31 32 33 34 35 36 37 38 39 40 41 42 43 44 45 46 47 48 49 50 51 52 53 54 55 56 57 58 59 60 61 62 63 64 65/end/|6|map vertex 0
";

// A triangle, the tetrahedron, one with five vertices and the octahedron; and then maps that break one rule each. `tri` is
// a class of `check` alone.
const TRIANGULATIONS: &str = "\
check tri|map 3 0/v 0 2/v 1 4/v 3 5/end/|0|ok 3 3 2/
check tri|map 3 3/v 5 3/v 4 1/v 0 2/end/residue 9 9/|0|ok 3 3 2/
check tri|map 6 0/v 0 2 4/v 1 6 8/v 3 9 10/v 5 11 7/end/residue 0 0 0 0 0 0 0 0/|0|ok 4 6 4/
check tri|map 9 0/v 0 2 4 6/v 1 8 10/v 3 11 12 14/v 5 15 16/v 7 17 13 9/end/|0|ok 5 9 6/
check tri|map 12 0/v 0 2 4 6/v 1 8 10 12/v 3 13 14 16/v 5 17 18 20/v 7 21 22 9/v 11 23 19 15/end/|0|ok 6 12 8/
check tri|map 0 0/end/|6|map empty
check tri|map 2 0/v 0 1 2 3/end/|6|map face 0
check tri|map 4 0/v 0 6 5/v 1 2/v 3 4/v 7/end/|6|map face 1
check tri|map 3 0/v 0 2 1 4/v 3/v 5/end/|6|map loop 0
check tri|map 3 0/v 2 0 3 4/v 1/v 5/end/|6|map loop 2
check tri|map 6 0/v 0 2 4 6/v 1 10 5 8/v 3 9/v 7 11/end/|6|map double 0
check tri|map 6 0/v 2 0 4 6/v 3 10 5 8/v 1 9/v 7 11/end/|6|map double 2
check tri|map 12 0/v 0 18 9 13 8 16 21 7/v 1 5/v 2 17 19 4 6 23/v 3 11 14 10 22 20/v 12/v 15/end/|6|map loop 8
check tri|map 12 0/v 0 19 15 5/v 1 13 16/v 2 23 10 21 18 17/v 3 12 4 8/v 6 11/v 7 22 9 14 20/end/|6|map double 20
check tri|map 2 0/v 0 1 2 2/end/|6|map permutation 3
check tri|map 4 0/v 0 1 2 3/v 4 6 5 7/end/|6|map connected 4
check tri|map 2 0/v 0 2 1 3/end/|6|map euler 0
check tri||3|text 1
check tri 1||2|usage 2
check triangle||2|usage 1
sample tri 1|choices 0 0 0 0/|2|usage 1
unsample tri||2|usage 1
trip tri 5 1||2|usage 1
census tri 1||2|usage 1
";

const SAMPLE: &str = "\
sample quartic 1|choices 0 2 0/|0|map 2 0/v 0 1 2 3/end/residue 2 0 0/
sample quartic 1|choices 1 0 1/|0|map 2 0/v 0 1 2 3/end/residue 1 1 0/
sample quartic 2|choices 0 0 0 0 0/|0|map 4 0/v 0 2 4 1/v 3 5 6 7/end/residue 0 0 1 0/
sample||2|usage 1
sample quartic||2|usage 2
sample quartic 0||2|usage 2
sample quartic 2097153||2|usage 2
sample quartic 01||2|usage 2
sample quartic 1 x||2|usage 3
sample simple 1||2|usage 1
sample quartic 2097152||3|text 1
sample quartic 1|choices 2 0 0/|4|list entry 0 2 2
sample quartic 1|choices 0 2/|4|list length 3 2
sample quartic 1|choices/|4|list length 3 0
sample quartic 1|choices 0 0 0 /|3|text 1
sample quartic 1|choices 0 0 0/x/|3|text 2
sample quartic 1|choices 0 0 0|3|text 1
sample quartic 1|choice 0 0 0/|3|text 1
sample eulerian 4:1|choices 0 0 0 2 0/|0|map 2 0/v 0 1 2 3/end/residue 0 0 0 0 2/
sample eulerian 2:1|choices 0 0 0 0/|0|map 1 0/v 0 1/end/residue 0 0 0 0/
sample eulerian 2:1|choices 0 0 0 1/|0|map 1 0/v 0 1/end/residue 0 0 0 1/
sample eulerian 2:1|choices 1 0 0 0/|0|map 1 0/v 0 1/end/residue 1 0 0 0/
sample eulerian 2:1|choices 1 0 0 1/|0|map 1 0/v 0 1/end/residue 1 0 0 1/
sample eulerian 2:1,4:1|choices 3 1 0 0 0 1 1/|0|map 3 0/v 0 2/v 1 3 4 5/end/residue 1 0 0 0 0 2/
sample eulerian 2:2,4:1,6:1|choices 5 3 0 4 1 2 0 0 0 0 2 7 1/|0|map 7 0/v 0 2/v 1 3 4 6/v 5 8/v 7 10 12 13 11 9/end/residue 1 0 0 0 0 3 2 0 0 2/
sample eulerian||2|usage 2
sample eulerian 2:1 x||2|usage 3
sample eulerian 2:1|choices 0 0 0 2/|4|list entry 3 2 2
sample eulerian 2:1|choices 0 0 0/|4|list length 4 3
";

const SAMPLE_MORE: &str = "\
sample eulerian 2:1|choices 0 0 0 0/x/|3|text 2
sample eulerian 2:1|choices 0 0 0 0|3|text 1
sample eulerian 4:1|choices 0 0 0 3 0/|4|list entry 3 3 3
sample eulerian 2:2,4:2097151||3|text 1
sample eulerian 64:1|choices 0 0 0 0 0 0 0 0 0 0 0 0 0 0 0 0 0 0 0 0 0 0 0 0 0 0 0 0 0 0 0 0 0 916312070471295267 0/|4|list entry 33 916312070471295267 916312070471295267
sample eulerian 4:1,2:1|choices 0 0 0 0/|2|usage 2
sample eulerian 2:1,2:1|choices 0 0 0 0/|2|usage 2
sample eulerian 2:0|choices 0 0 0 0/|2|usage 2
sample eulerian 2:1,4:0|choices 0 0 0 0/|2|usage 2
sample eulerian 2:4194305|choices 0 0 0 0/|2|usage 2
sample eulerian 2:1,4:2097152|choices 0 0 0 0/|2|usage 2
sample eulerian 2:1,,4:1|choices 0 0 0 0/|2|usage 2
sample eulerian 2:1,|choices 0 0 0 0/|2|usage 2
sample eulerian ,2:1|choices 0 0 0 0/|2|usage 2
sample eulerian 2:1:1|choices 0 0 0 0/|2|usage 2
sample eulerian 02:1|choices 0 0 0 0/|2|usage 2
sample eulerian 2:01|choices 0 0 0 0/|2|usage 2
sample eulerian :|choices 0 0 0 0/|2|usage 2
sample eulerian ,|choices 0 0 0 0/|2|usage 2
sample eulerian 2|choices 0 0 0 0/|2|usage 2
sample eulerian 2:|choices 0 0 0 0/|2|usage 2
sample eulerian :1|choices 0 0 0 0/|2|usage 2
sample eulerian 3:1|choices 0 0 0 0/|2|usage 2
sample eulerian 0:1|choices 0 0 0 0/|2|usage 2
sample eulerian 66:1|choices 0 0 0 0/|2|usage 2
sample eulerian +2:1|choices 0 0 0 0/|2|usage 2
sample eulerian 2:1x|choices 0 0 0 0/|2|usage 2
sample eulerian 4294967298:1|choices 0 0 0 0/|2|usage 2
sample eulerian 2:4294967297|choices 0 0 0 0/|2|usage 2
sample eulerian 2:18446744073709551617|choices 0 0 0 0/|2|usage 2
";

const UNSAMPLE: &str = "\
unsample||2|usage 1
unsample simple||2|usage 1
unsample quartic 2||2|usage 2
unsample quartic|map 2 0/v 0 1 2 3/end/|3|text 4
unsample quartic|map 2 0/v 0 1 2 3/end/residue  0/|3|text 4
unsample quartic|map 2 0/v 0 1 2 3/end/residue 2 0 0/residue 2 0 0/|3|text 5
unsample quartic|map 2 0/v 0 1 2 3/end/residue 3 0 0/|4|list entry 0 3 3
unsample quartic|map 2 0/v 0 1 2 3/end/residue 2 0/|4|list length 3 2
unsample quartic|map 2 0/v 0 2 1 3/end/residue 3 0 0/|6|map euler 0
unsample quartic|map 1 0/v 0/v 1/end/residue 0/|6|map vertex 0
unsample quartic|map 0 0/end/residue 0/|6|map empty
unsample eulerian|map 1 0/v 0/v 1/end/residue 0/|6|map vertex 0
unsample eulerian|map 0 0/end/residue 0/|6|map empty
unsample quartic|map 4194305 0/end/residue 0/|3|text 2
unsample quartic|map 4 0/v 0 2 4 1/v 3 5 6 7/end/residue 0 0 1 0/|0|choices 0 0 0 0 0/
unsample quartic|map 4 7/v 7 0 2 6/v 1 3 5 4/end/residue 0 0 1 0/|0|choices 0 0 0 0 0/
unsample eulerian|map 2 0/v 0 1 2 3/end/residue 0 0 0 0 2/|0|choices 0 0 0 2 0/
unsample eulerian|map 3 0/v 0 2/v 1 3 4 5/end/residue 1 0 0 0 0 2/|0|choices 3 1 0 0 0 1 1/
";

const DRAW: &str = "\
draw||2|usage 1
draw tri 1 7 1||2|usage 1
draw quartic||2|usage 2
draw quartic 0 7 1||2|usage 2
draw quartic 2097153 7 1||2|usage 2
draw quartic 1||2|usage 3
draw quartic 1 x 1||2|usage 3
draw quartic 1 18446744073709551616 1||2|usage 3
draw quartic 1 7||2|usage 4
draw quartic 1 7 0||2|usage 4
draw quartic 1 7 1001||2|usage 4
draw quartic 1 7 01||2|usage 4
draw quartic 1 7 1 1||2|usage 5
draw eulerian||2|usage 2
draw eulerian 3:1 7 1||2|usage 2
draw eulerian 2:1||2|usage 3
draw eulerian 2:1 7 0||2|usage 4
draw eulerian 2:1 7 1 1||2|usage 5
draw quartic 1 7 2||0|choices 0 2 0/map 2 0/v 0 1 2 3/end/residue 2 0 0/choices 1 2 1/map 2 0/v 0 2 3 1/end/residue 1 1 0/
draw quartic 1 7 1||0|choices 0 2 0/map 2 0/v 0 1 2 3/end/residue 2 0 0/
draw quartic 2 0 1||0|choices 1 5 0 1 0/map 4 0/v 0 2 4 1/v 3 6 7 5/end/residue 0 2 1 0/
draw quartic 3 18446744073709551615 2||0|choices 1 5 8 2 1 1 1/map 6 0/v 0 2 3 4/v 1 6 7 8/v 5 9 10 11/end/residue 1 2 2 1 0/choices 1 3 7 1 2 0 0/map 6 0/v 0 2 4 6/v 1 8 10 11/v 3 9 7 5/end/residue 4 3 2 1 0/
draw eulerian 2:1,4:1 7 2||0|choices 0 2 0 0 0 2 1/map 3 0/v 0 2/v 1 3 4 5/end/residue 2 0 0 0 0 1/choices 2 1 0 0 0 1 1/map 3 0/v 0 2/v 1 3 4 5/end/residue 1 0 0 1 0 2/
";

const GENERAL: &str = "\
sample general 0|choices 1/|0|map 0 0/end/residue 1 0/
sample general 0|choices 2/|4|list entry 0 2 2
sample general 1|choices 0 2 0/|0|map 1 0/v 0/v 1/end/residue 2 0 0/
sample general 1|choices 0 0 0/|0|map 1 0/v 0 1/end/residue 0 0 0/
sample general 2|choices 0 0 0 0 0/|0|map 2 0/v 0 1 2/v 3/end/residue 0 0 1 0/
sample general||2|usage 2
sample general 01||2|usage 2
sample general 2097153||2|usage 2
sample general 2097152||3|text 1
sample general 1 x||2|usage 3
unsample general|map 0 0/end/residue 1 0/|0|choices 1/
unsample general|map 0 0/end/residue 2 0/|4|list entry 0 2 2
unsample general|map 0 0/end/residue 1 1/|4|list entry 1 1 1
unsample general|map 1 0/v 0/v 1/end/residue 2 0 0/|0|choices 0 2 0/
unsample general|map 1 1/v 1/v 0/end/residue 2 0 0/|0|choices 0 2 0/
unsample general|map 1 0/v 0/v 1/end/residue 3 0 0/|4|list entry 0 3 3
unsample general|map 1 0/v 0/v 1/end/|3|text 5
unsample general|map 2 0/v 0 2 1 3/end/residue 0 0 0 0/|6|map euler 0
draw general 0 7 2||0|choices 0/map 0 0/end/residue 0 0/choices 1/map 0 0/end/residue 1 0/
draw general 1 1 1||0|choices 0 0 1/map 1 0/v 0/v 1/end/residue 1 0 0/
draw general 3 2 1||0|choices 0 4 1 0 1 0 0/map 3 0/v 0 2 3 1 4 5/end/residue 0 3 0 0 0/
draw general 2097153 1 1||2|usage 2
";

const BIPARTITE: &str = "\
sample bipartite 4:1|choices 0 0 0 2 0/|0|map 2 0/v 0 2/v 1/v 3/end/residue 0 0 0 0 2/
sample bipartite 2:1,4:1|choices 3 1 0 0 0 1 1/|0|map 3 0/v 0 2/v 1 3 4/v 5/end/residue 1 0 0 0 0 2/
sample bipartite 2:2,4:1,6:1|choices 4 5 2 4 0 1 0 0 0 0 1 7 0/|0|map 7 0/v 0 2/v 1 4 6/v 3 8 10 12/v 5 13 11 7/v 9/end/residue 2 0 0 0 0 3 1 0 0 4/
sample bipartite 3:1||2|usage 2
sample bipartite 2||2|usage 2
sample bipartite 2:1|choices 0 0 0 2/|4|list entry 3 2 2
unsample bipartite|map 2 0/v 0 2/v 1/v 3/end/residue 0 0 0 0 2/|0|choices 0 0 0 2 0/
unsample bipartite|map 0 0/end/residue/|6|map empty
unsample bipartite|map 1 0/v 0 1/end/residue 0 0 0/|6|map face 0
unsample bipartite|map 2 0/v 0 2/v 1/v 3/end/residue 0 0 0 0 3/|4|list entry 4 3 3
unsample bipartite 2:1||2|usage 2
check bipartite|map 2 0/v 0 2/v 1/v 3/end/|0|ok 3 2 1/
check bipartite|map 0 0/end/|6|map empty
check bipartite|map 1 0/v 0 1/end/|6|map face 0
check bipartite|map 1 0/v 0/v 1/end/|0|ok 2 1 1/
check bipartite|map 2 1/v 0 2/v 1 3/end/|0|ok 2 2 2/
check bipartite|map 2 0/v 0 2 1 3/end/|6|map euler 0
check bipartite|map 2 0/v 0 1 2 3/end/|6|map face 1
check bipartite 2:1||2|usage 2
draw bipartite 2:1,4:1 7 1||0|choices 0 2 0 0 0 2 1/map 3 0/v 0 2/v 1 3 4/v 5/end/residue 2 0 0 0 0 1/
draw bipartite 4:1 1 0||2|usage 4
";

const TRIP: &str = "\
trip||2|usage 1
trip square 1 1||2|usage 1
trip quartic||2|usage 2
trip quartic 0 1||2|usage 2
trip quartic 1||2|usage 3
trip quartic 1 -1||2|usage 3
trip quartic 1 7 1||2|usage 4
trip quartic 20 1||0|trip ok 20 40 22/
trip eulerian 4:50 3||0|trip ok 50 100 52/
trip bipartite 4:50 3||0|trip ok 52 100 50/
trip general 0 7||0|trip ok 1 0 1/
trip general 100 7||0|trip ok 47 100 55/
";

const CENSUS: &str = "\
census||2|usage 1
census square 1||2|usage 1
census quartic||2|usage 2
census quartic 0||2|usage 2
census eulerian 2||2|usage 2
census quartic 1 7||2|usage 3
census quartic 1||0|map 2 0/v 0 2 3 1/end/lists 6/map 2 0/v 0 1 2 3/end/lists 6/total 2 12/
census eulerian 2:1||0|map 1 0/v 0 1/end/lists 4/total 1 4/
census bipartite 2:1||0|map 1 0/v 0/v 1/end/lists 4/total 1 4/
census general 0||0|map 0 0/end/lists 2/total 1 2/
census general 5||7|limit lists
";

// The bytes that a part of a row writes.
fn bytes_of(alloc: Global, text: &str) -> Result<Vec<u8>, AllocError> {
    let mut bytes = Vec::new(alloc);
    for byte in text.as_bytes() {
        bytes.push(if *byte == b'/' { b'\n' } else { *byte })?;
    }
    Ok(bytes)
}

// Runs what a row says, and compares.
fn check_row(rt: &impl Abort, alloc: Global, row: &str) -> Result<(), Fail> {
    let (line, rest) = row.split_once('|').expect(rt, "words");
    let (input, rest) = rest.split_once('|').expect(rt, "an input");
    let (status, text) = rest.split_once('|').expect(rt, "a status");
    let run = run_on(rt, alloc, line, &bytes_of(alloc, input)?, NONE)?;
    assert_eq!(rt; run.status, status.parse::<u8>()?, "at {line}");
    if run.status == 0 {
        assert_eq!(rt;
            run.out.bytes(),
            bytes_of(alloc, text)?.as_slice(),
            "at {line}"
        );
        assert_eq!(rt; run.err.bytes(), b"".as_slice());
    } else {
        let told = format!(in alloc; "planarmap: {text}\n")?;
        assert_eq!(rt; run.err.bytes(), told.as_bytes(), "at {line}");
        assert_eq!(rt; run.out.bytes(), b"".as_slice());
    }
    Ok(())
}

#[test]
fn answers_and_refusals(rt: HostRuntime) -> Result<(), Fail> {
    words_and_bytes_have_one_answer();
    for rows in [
        WORDS,
        CLOSE,
        OPEN,
        CANON,
        IMAGES,
        CHECK,
        CHECK_MORE,
        TRIANGULATIONS,
        SAMPLE,
        SAMPLE_MORE,
        UNSAMPLE,
        DRAW,
        TRIP,
        CENSUS,
        GENERAL,
        BIPARTITE,
    ] {
        for row in rows.lines() {
            check_row(&rt, rt.alloc(), row)?;
        }
    }
    Ok(())
}

// Each record has one write, so what a failing second write leaves is the first record and a prefix of the second one. A
// drawing reads nothing, nor does a trip or a census.
#[test]
fn failing_streams(rt: HostRuntime) -> Result<(), Fail> {
    let (close, draw, trip) = ("close eulerian", "draw quartic 1 7 2", "trip quartic 20 1");
    let census = "census quartic 1";
    for (line, faults, status, kept, told) in [
        (close, Faults { read: 3, ..NONE }, 5, 0, "read"),
        (
            close,
            Faults {
                out: 1,
                part: 5,
                ..NONE
            },
            8,
            5,
            "write",
        ),
        (close, Faults { out: 2, ..NONE }, 8, 22, "write"),
        (close, Faults { err: 1, ..NONE }, 0, 22, ""),
        (draw, Faults { read: 1, ..NONE }, 0, 100, ""),
        (draw, Faults { out: 2, ..NONE }, 8, 50, "write"),
        (
            draw,
            Faults {
                out: 2,
                part: 9,
                ..NONE
            },
            8,
            59,
            "write",
        ),
        (draw, Faults { out: 3, ..NONE }, 8, 100, "write"),
        (trip, Faults { read: 1, ..NONE }, 0, 17, ""),
        (trip, Faults { out: 2, ..NONE }, 8, 17, "write"),
        (census, Faults { read: 1, ..NONE }, 0, 71, ""),
        (census, Faults { out: 2, ..NONE }, 8, 30, "write"),
        (census, Faults { out: 4, ..NONE }, 8, 71, "write"),
    ] {
        let whole = run_on(&rt, rt.alloc(), line, b"tree lbl\n", NONE)?;
        let run = run_on(&rt, rt.alloc(), line, b"tree lbl\n", faults)?;
        assert_eq!(rt; run.status, status, "at {line}");
        assert_eq!(rt; run.out.bytes().len(), kept, "at {line}");
        assert!(rt; whole.out.bytes().starts_with(run.out.bytes()));
        let line = std::str::from_utf8(run.err.bytes())?;
        assert!(rt; line.trim_end().ends_with(told));
    }
    Ok(())
}

// What one command answers, another undoes: the words of both, and the bytes that come back.
#[test]
fn back_again(rt: HostRuntime) -> Result<(), Fail> {
    opening_undoes_closing();
    sampling_undoes_unsampling();
    for (there, back, bytes) in [
        ("close eulerian", "open eulerian", "tree (l)\n"),
        ("close eulerian", "open eulerian", "tree b(b(l)l)l\n"),
        ("close eulerian", "open eulerian", "tree b(bl(bll))l\n"),
        ("close eulerian", "open eulerian", "tree bb(bbl(bll)l)ll\n"),
        (
            "sample quartic 2",
            "unsample quartic",
            "choices 1 5 0 1 0\n",
        ),
        (
            "sample quartic 3",
            "unsample quartic",
            "choices 1 5 8 2 1 1 1\n",
        ),
        (
            "sample eulerian 2:1,4:1",
            "unsample eulerian",
            "choices 3 1 0 0 0 1 1\n",
        ),
    ] {
        let gone = run_on(&rt, rt.alloc(), there, bytes.as_bytes(), NONE)?;
        assert_eq!(rt; gone.status, 0, "at {there}");
        let run = run_on(&rt, rt.alloc(), back, gone.out.bytes(), NONE)?;
        assert_eq!(rt; run.status, 0, "at {back}");
        assert_eq!(rt; run.out.bytes(), bytes.as_bytes());
    }
    Ok(())
}

// The line of choices of a drawn record, given to `sample`, gives the rest of the record, which `unsample` takes back.
#[test]
fn records_are_sampled(rt: HostRuntime) -> Result<(), Fail> {
    for (class, size) in [
        ("general", "1000"),
        ("quartic", "1000"),
        ("eulerian", "2:300,4:300,6:100"),
        ("bipartite", "2:300,4:300,6:100"),
    ] {
        let line = format!(in rt.alloc(); "draw {class} {size} 7 1")?;
        let drawn = run_on(&rt, rt.alloc(), line.as_str(), b"", NONE)?;
        assert_eq!(rt; drawn.status, 0);
        let text = std::str::from_utf8(drawn.out.bytes())?;
        let (_, rest) = text.split_once('\n').expect(&rt, "a line");
        let choices = &text.as_bytes()[..text.len() - rest.len()];
        let line = format!(in rt.alloc(); "sample {class} {size}")?;
        let sampled = run_on(&rt, rt.alloc(), line.as_str(), choices, NONE)?;
        assert_eq!(rt; sampled.out.bytes(), rest.as_bytes());
        let line = format!(in rt.alloc(); "unsample {class}")?;
        let run = run_on(&rt, rt.alloc(), line.as_str(), rest.as_bytes(), NONE)?;
        assert_eq!(rt; run.out.bytes(), choices);
    }
    Ok(())
}

#[test]
fn fewer_records_are_a_prefix(rt: HostRuntime) -> Result<(), Fail> {
    let few = run_on(&rt, rt.alloc(), "draw quartic 100 5 3", b"", NONE)?;
    let roomy = Faults {
        room: 10_000_000,
        ..NONE
    };
    let many = run_on(&rt, rt.alloc(), "draw quartic 100 5 1000", b"", roomy)?;
    assert_eq!(rt; few.status, 0);
    assert_eq!(rt; many.status, 0);
    assert!(rt; many.out.bytes().starts_with(few.out.bytes()));
    Ok(())
}

// There are 2 · 3^4 · C(8, 4) / (5 · 6) maps with four edges, and 2 · 3^4 · 8! / 4! lists.
#[test]
fn maps_with_four_edges_are_counted(rt: HostRuntime) -> Result<(), Fail> {
    let run = run_on(&rt, rt.alloc(), "census general 4", b"", NONE)?;
    assert_eq!(rt; run.status, 0);
    let text = std::str::from_utf8(run.out.bytes())?;
    assert!(rt; text.ends_with("total 378 272160\n"));
    for line in text.lines() {
        if line.starts_with("lists") {
            assert_eq!(rt; line, "lists 720");
        }
    }
    Ok(())
}
