ghost use Rattle.std.specs.Prelude.{◌≤◌, length, IfOk};
ghost use Rattle.pm_io.specs.declared.TheConstants.{MAX_BYTES as limit};
ghost use Rattle.pm_cli.specs.steps.Answering.{IsAnswerBy};
ghost use Rattle.pm_cli.specs.Sampling.{Samples};
ghost use Rattle.pm_cli.specs.steps.Unnamed.{IsTextOfUnnamed};

use crate::choices_file::read_choices;
use crate::refusal::{Refusal, Stop};
use pm_class::{MapClass, Sample};
use pm_lists::{check_list, put_list};
use pm_mapfile::canonical_bytes;
use std::alloc::{AllocError, Global};

// The text of the canonical map of the sample's map, and the line of the residue.
pub(crate) fn sample_text(alloc: Global, sample: &Sample) -> Result<Vec<u8>, AllocError>
    ensures { IfOk result (λ text. IsTextOfUnnamed sample.now.map sample.now.residue text.items) }
{
    let mut text = canonical_bytes(alloc, &sample.map)?;
    put_list(alloc, b"residue", &sample.residue, &mut text)?;
    Ok(text)
}

// `sample CLASS SIZE`: the text of the map and the residue that the choices in the file give.
pub(crate) fn sample<C: MapClass>(
    alloc: Global,
    size: &C::Size,
    bytes: &[u8],
) -> Result<Vec<u8>, Stop>
    requires bytes { length bytes.now ≤ limit }
    requires size { C.is_size size.now }
    ensures { IsAnswerBy (Samples (record {
      is_size = C.is_size size.now;
      choice_limits = C.choice_limits size.now;
      residue_limits = C.residue_limits size.now;
      has = C.has size.now;
      samples = C.samples size.now;
    }) bytes.now) result }
{
    let choices = read_choices(alloc, bytes)?;
    let bounds = C::choice_bounds(alloc, size)?;
    if let Err(refusal) = check_list(choices.values(), &bounds) {
        return Err(Stop::Refused(Refusal::Invalid(refusal)));
    }
    drop(bounds);
    let sample = C::sample_unnamed(alloc, size, choices.values())?;
    drop(choices);
    Ok(sample_text(alloc, &sample)?)
}
