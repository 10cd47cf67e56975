ghost use Rattle.std.specs.Prelude.{◌≡◌, IfOk, decimal, codes, ◌++◌, ◌∷◌, []};
ghost use Rattle.pm_text.specs.Broken.{newline};
ghost use Rattle.pm_reach.specs.Census.{IsCensus};
ghost use Rattle.pm_cli.specs.Counting.{IsEntryText, IsCensusRecord, HasFirstEntries, Counts};
ghost use Rattle.pm_cli.specs.Records.{RecordsGoOn};
ghost use Rattle.pm_cli.specs.steps.Streams.{IsWritingRecords};

use crate::refusal::Stop;
use crate::writing::write_text;
use pm_class::MapClass;
use pm_io::Sink;
use pm_map::RootedMap;
use pm_mapfile::map_bytes;
use pm_reach::{CensusList, census, census_counts_lists, census_has_each_map_once};
use pm_text::put_number;
use std::alloc::{AllocError, Global};

// The text of a map, and the line of how many lists give it.
fn entry_text(alloc: Global, map: &RootedMap, lists: u64) -> Result<Vec<u8>, AllocError>
    ensures { IfOk result (λ text. IsEntryText map.now lists text.items) }
{
    let mut text = map_bytes(alloc, map)?;
    text.extend_from_slice(b"lists ")?;
    put_number(alloc, lists, &mut text)?;
    text.push(b'\n')?;
    Ok(text)
}

// The line of how many maps there are, and how many lists.
fn total_text(alloc: Global, maps: u32, lists: u64) -> Result<Vec<u8>, AllocError>
    ensures { IfOk result (λ text. text.items ≡ codes "total " ++ decimal maps ++ codes " " ++ decimal lists ++ newline ∷ []) }
{
    let mut text = Vec::new(alloc);
    text.extend_from_slice(b"total ")?;
    put_number(alloc, u64::from(maps), &mut text)?;
    text.push(b' ')?;
    put_number(alloc, lists, &mut text)?;
    text.push(b'\n')?;
    Ok(text)
}

// First records of a census are a prefix of more: each of its maps is canonical, and so has a text. Nothing is computed.
fn entries_go_on<C: MapClass>(size: &C::Size, found: &CensusList)
    requires size { C.is_size size.now }
    requires found { IsCensus (C.choice_limits size.now) (C.samples size.now) found.now }
    ensures { RecordsGoOn (IsCensusRecord found.now) }
{
    census_has_each_map_once::<C>();
}

// `census CLASS SIZE`: writes each map of the class and size with the number of its lists, a write for each map, and then
// how many maps and lists there are. Where there are too many lists nothing is written.
pub(crate) fn write_census<C: MapClass, O: Sink>(
    alloc: Global,
    size: &C::Size,
    out: &mut O,
) -> Result<(), Stop>
    requires { C.is_size size.now }
    ensures { IsWritingRecords (Counts (C.choice_limits size.now) (C.samples size.now))
        (HasFirstEntries (C.choice_limits size.now) (C.samples size.now))
        (O.holds out.old) (O.holds out.new) (O.faults out.old) (O.faults out.new) result }
{
    let found = census::<C>(alloc, size)?;
    entries_go_on::<C>(size, &found);
    census_counts_lists::<C>();
    let mut lists: u64 = 0;
    'maps: for place in 0..found.len() {
        let text = entry_text(alloc, found.map(place), found.lists(place))?;
        out.write(&text)?;
        lists += found.lists(place);
    }
    let total = total_text(alloc, found.len(), lists)?;
    write_text(out, &total)
}
