ghost use Rattle.std.specs.Prelude.{◌≤◌, length};
ghost use Rattle.pm_io.specs.declared.TheConstants.{MAX_BYTES as byte_limit};
ghost use Rattle.pm_limits.specs.declared.TheConstants.{MAX_EDGES};
ghost use Rattle.pm_cli.specs.steps.MapReading.{IsMapOfFile, IsPairOfFile};

use crate::refusal::Stop;
use pm_lists::NumList;
use pm_map::RootedMap;
use pm_mapfile::{read_map_file, read_sample_file};
use std::alloc::Global;

// The map of a map file that has at most so many edges.
pub(crate) fn map_of_file(alloc: Global, bytes: &[u8], limit: u32) -> Result<RootedMap, Stop>
    requires bytes { length bytes.now ≤ byte_limit }
    requires limit { limit ≤ MAX_EDGES }
    ensures { IsMapOfFile bytes.now limit result }
{
    let (map, _residue) = read_map_file(alloc, bytes, limit)?;
    Ok(map)
}

// The map of a map file with its residue line that has at most so many edges, and the numbers of that line.
pub(crate) fn pair_of_file(
    alloc: Global,
    bytes: &[u8],
    limit: u32,
) -> Result<(RootedMap, NumList), Stop>
    requires bytes { length bytes.now ≤ byte_limit }
    requires limit { limit ≤ MAX_EDGES }
    ensures { IsPairOfFile bytes.now limit result }
{
    Ok(read_sample_file(alloc, bytes, limit)?)
}
