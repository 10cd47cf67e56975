ghost use Rattle.std.specs.Prelude.{◌≤◌, length};
ghost use Rattle.pm_io.specs.declared.TheConstants.{MAX_BYTES as limit};
ghost use Rattle.pm_cli.specs.MapAnswers.{AnswersMap, opening};
ghost use Rattle.pm_cli.specs.steps.Answering.{IsAnswerBy};

use crate::map_file::map_of_file;
use crate::refusal::{MapRule, Refusal, Stop};
use crate::tree_file::tree_text;
use pm_limits::MAX_EDGES;
use pm_open::{OpenRefusal, open_map};
use std::alloc::Global;

// `open eulerian`: the tree file of the opening of the map in the file.
pub(crate) fn open_eulerian(alloc: Global, bytes: &[u8]) -> Result<Vec<u8>, Stop>
    requires { length bytes.now ≤ limit }
    ensures { IsAnswerBy (AnswersMap opening bytes.now) result }
{
    let map = map_of_file(alloc, bytes, MAX_EDGES)?;
    if map.sigma().is_empty() {
        return Err(Stop::Refused(Refusal::Map(MapRule::Empty)));
    }
    let tree = match open_map(alloc, &map) {
        Ok(tree) => tree,
        Err(OpenRefusal::Memory) => return Err(Stop::Memory),
        Err(OpenRefusal::Degree { dart }) => {
            return Err(Stop::Refused(Refusal::Map(MapRule::Vertex { dart })));
        }
    };
    Ok(tree_text(alloc, &tree)?)
}
