ghost use Rattle.std.specs.Prelude.{◌≡◌, ℕ, IfOk, OnOk};
ghost use Rattle.pm_lists.specs.Valid.{AreBounds};
ghost use Rattle.pm_draw.specs.Drawn.{words_of, drawn};
ghost use Rattle.pm_cli.specs.Drawing.{IsRecord, IsDrawnRecord, Draws};
ghost use Rattle.pm_cli.specs.Answer.{AnswersSize};
ghost use Rattle.pm_cli.specs.Classes.{AtSize};
ghost use Rattle.pm_cli.specs.Ending.{IsFirstRecords};
ghost use Rattle.pm_cli.specs.Records.{HasFirstRecords, RecordsGoOn};
ghost use Rattle.pm_cli.specs.steps.Streams.{IsWritingRecords};

use crate::census::write_census;
use crate::command::Maker;
use crate::refusal::Stop;
use crate::sample::sample_text;
use crate::trip::trip;
use crate::writing::write_text;
use pm_class::{MapClass, each_list_is_sampled};
use pm_draw::{draw_list, rng_of};
use pm_io::Sink;
use pm_lists::{Bounds, put_list};
use rand_pcg::Pcg64;
use std::alloc::{AllocError, Global};

// Draws a list of choices for these bounds and makes its record: the line of the choices, and the text of the map and
// the residue that they give.
fn draw_record<C: MapClass>(
    alloc: Global,
    size: &C::Size,
    bounds: &Bounds,
    rng: &mut Pcg64,
) -> Result<Vec<u8>, AllocError>
    requires size { C.is_size size.now }
    requires bounds { bounds.now ≡ C.choice_limits size.now }
    ensures record { IfOk result (λ text. IsRecord (C.samples size.now) (drawn bounds.now (words_of rng.old)).0 text.items) }
    ensures left { OnOk result (words_of rng.new ≡ (drawn bounds.now (words_of rng.old)).1) }
{
    let choices = draw_list(alloc, rng, bounds)?;
    let sample = C::sample_unnamed(alloc, size, choices.values())?;
    let mut text = Vec::new(alloc);
    put_list(alloc, b"choices", &choices, &mut text)?;
    drop(choices);
    let rest = sample_text(alloc, &sample)?;
    drop(sample);
    text.extend_from_slice(&rest)?;
    Ok(text)
}

// First records are a prefix of more: by the laws of the class each list has a record, also those that a drawing which
// stops early doesn't come to. Nothing is computed.
fn records_go_on<C: MapClass>(size: &C::Size, limits: &[u64])
    requires size { C.is_size size.now }
    requires limits { limits.now ≡ C.choice_limits size.now }
    requires bounds { AreBounds limits.now }
    ensures { (seed : ℕ) → RecordsGoOn (IsDrawnRecord (C.choice_limits size.now) (C.samples size.now) seed) }
{
    each_list_is_sampled::<C>();
}

// `draw CLASS SIZE SEED COUNT`: writes so many records, each made whole before its one write, and hands them on. One
// generator, that of the seed, draws all the lists.
fn draw<C: MapClass, O: Sink>(
    alloc: Global,
    size: &C::Size,
    seed: u64,
    count: u64,
    out: &mut O,
) -> Result<(), Stop>
    requires { C.is_size size.now }
    ensures { IsWritingRecords (Draws (C.choice_limits size.now) (C.samples size.now) seed count)
        (HasFirstRecords (IsDrawnRecord (C.choice_limits size.now) (C.samples size.now) seed) count)
        (O.holds out.old) (O.holds out.new) (O.faults out.old) (O.faults out.new) result }
{
    let bounds = C::choice_bounds(alloc, size)?;
    records_go_on::<C>(size, bounds.values());
    let mut rng = rng_of(seed);
    'records: for _place in 0..count {
        let record = draw_record::<C>(alloc, size, &bounds, &mut rng)?;
        out.write(&record)?;
    }
    out.flush()?;
    Ok(())
}

// Does a task with a size of a class, and writes its answer.
pub(crate) fn make_of<C: MapClass, O: Sink>(
    alloc: Global,
    task: &Maker,
    size: &C::Size,
    out: &mut O,
) -> Result<(), Stop>
    requires { C.is_size size.now }
    ensures { let at : AtSize = record {
      is_size = C.is_size size.now;
      choice_limits = C.choice_limits size.now;
      residue_limits = C.residue_limits size.now;
      has = C.has size.now;
      samples = C.samples size.now;
    } in IsWritingRecords (AnswersSize task.now at) (IsFirstRecords task.now at)
        (O.holds out.old) (O.holds out.new) (O.faults out.old) (O.faults out.new) result }
{
    match task {
        Maker::Draw { seed, count } => draw::<C, O>(alloc, size, *seed, *count, out),
        Maker::Trip { seed } => {
            let text = trip::<C>(alloc, size, *seed)?;
            write_text(out, &text)
        }
        Maker::Census => write_census::<C, O>(alloc, size, out),
    }
}
