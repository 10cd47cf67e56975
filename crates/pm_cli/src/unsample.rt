ghost use Rattle.std.specs.Prelude.{◌≤◌, length};
ghost use Rattle.pm_io.specs.declared.TheConstants.{MAX_BYTES as limit};
ghost use Rattle.pm_limits.specs.declared.TheConstants.{MAX_EDGES};
ghost use Rattle.pm_class.specs.Unsampling.{IsUnsampling};
ghost use Rattle.pm_cli.specs.MapAnswers.{counting};
ghost use Rattle.pm_cli.specs.Unsampling.{Unsamples};
ghost use Rattle.pm_cli.specs.steps.Answering.{IsAnswerBy};

use crate::choices_file::choices_text;
use crate::map_file::pair_of_file;
use crate::refusal::Stop;
use pm_class::MapClass;
use std::alloc::Global;

// `unsample CLASS`: the line of the choices that give the canonical map of the map in the file, and the residue there.
pub(crate) fn unsample<C: MapClass>(
    alloc: Global,
    bytes: &[u8],
    most_edges: u32,
) -> Result<Vec<u8>, Stop>
    requires bytes { length bytes.now ≤ limit }
    requires most { most_edges ≤ MAX_EDGES }
    ensures { IsAnswerBy (Unsamples (record {
      most_edges = most_edges;
      counts = counting most_edges C.answers;
      unsamples = IsUnsampling C.choice_limits C.residue_limits C.samples C.answers;
    }) bytes.now) result }
{
    let (map, residue) = pair_of_file(alloc, bytes, most_edges)?;
    let choices = C::unsample(alloc, &map, residue.values())?;
    Ok(choices_text(alloc, &choices)?)
}
