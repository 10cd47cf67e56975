//! The commands that print a text for a map.
ghost use Rattle.std.specs.Prelude.{◌≡◌, ◌*◌, ◌≤◌, IsTrue, [], ◌∷◌, ◌++◌, length, IfOk, OnOk};
ghost use Rattle.pm_io.specs.declared.TheConstants.{MAX_BYTES as limit};
ghost use Rattle.pm_limits.specs.declared.TheConstants.{MAX_EDGES};
ghost use Rattle.pm_lists.specs.ListLine.{is_tag, list_line};
ghost use Rattle.pm_map.specs.Rotation.{IsRootedMap};
ghost use Rattle.pm_text.specs.Broken.{newline};
ghost use Rattle.pm_cli.specs.declared.command.MapTask.TheVariants.{Canon, Medial, Unmedial, Dual, Layers};
ghost use Rattle.pm_cli.specs.MapAnswers.{MapRelation, AnswersMap, task_relation};
ghost use Rattle.pm_cli.specs.steps.Answering.{IsAnswerBy, AnswersTo};

use crate::command::MapTask;
use crate::map_file::map_of_file;
use crate::refusal::{MapRule, Refusal, Stop};
use pm_canon::canon;
use pm_class::MapClass;
use pm_general::General;
use pm_limits::MAX_EDGES;
use pm_lists::{NumList, put_list};
use pm_map::RootedMap;
use pm_mapfile::{canonical_bytes, map_bytes};
use pm_medial::{MedialRefusal, UnmedialRefusal, dual, medial, unmedial};
use pm_reach::layers;
use std::alloc::{AllocError, Global};

// What the task prints for the map in the file.
pub(crate) fn print(alloc: Global, task: MapTask, bytes: &[u8]) -> Result<Vec<u8>, Stop>
    requires { length bytes.now ≤ limit }
    ensures { IsAnswerBy (AnswersMap (task_relation task) bytes.now) result }
{
    let map = map_of_file(alloc, bytes, most_edges(task))?;
    text_of(alloc, task, &map)
}

// The most edges of a map that the task takes.
fn most_edges(task: MapTask) -> u32
    ensures is { let relation : MapRelation = task_relation task in result ≡ relation.limit }
    ensures few { result ≤ MAX_EDGES }
{
    match task {
        MapTask::Canon | MapTask::Unmedial | MapTask::Dual | MapTask::Layers => MAX_EDGES,
        MapTask::Medial => General::MOST_EDGES,
    }
}

// What the task prints for the map.
fn text_of(alloc: Global, task: MapTask, map: &RootedMap) -> Result<Vec<u8>, Stop>
    requires rooted { IsRootedMap map.now }
    requires few { let relation : MapRelation = task_relation task in length map.now.sigma ≤ 2 * relation.limit }
    ensures { IsAnswerBy (AnswersTo (task_relation task) map.now) result }
{
    match task {
        MapTask::Canon => print_map(alloc, map),
        MapTask::Medial => print_medial(alloc, map),
        MapTask::Unmedial => print_unmedial(alloc, map),
        MapTask::Dual => print_dual(alloc, map),
        MapTask::Layers => print_layers(alloc, map),
    }
}

// `canon`
fn print_map(alloc: Global, map: &RootedMap) -> Result<Vec<u8>, Stop>
    requires { IsRootedMap map.now }
    ensures { IsAnswerBy (AnswersTo (task_relation Canon) map.now) result }
{
    Ok(canonical_bytes(alloc, map)?)
}

// `medial`
fn print_medial(alloc: Global, map: &RootedMap) -> Result<Vec<u8>, Stop>
    requires { length map.now.sigma ≤ MAX_EDGES }
    ensures { IsAnswerBy (AnswersTo (task_relation Medial) map.now) result }
{
    if map.sigma().is_empty() {
        return Err(Stop::Refused(Refusal::Map(MapRule::Empty)));
    }
    let image = match medial(alloc, map) {
        Ok(image) => image,
        Err(MedialRefusal::Memory) => return Err(Stop::Memory),
        Err(MedialRefusal::TooMany { .. }) => unreachable!(),
    };
    Ok(canonical_bytes(alloc, &image)?)
}

// `unmedial`
fn print_unmedial(alloc: Global, map: &RootedMap) -> Result<Vec<u8>, Stop>
    ensures { IsAnswerBy (AnswersTo (task_relation Unmedial) map.now) result }
{
    if map.sigma().is_empty() {
        return Err(Stop::Refused(Refusal::Map(MapRule::Empty)));
    }
    let image = match unmedial(alloc, map) {
        Ok(image) => image,
        Err(UnmedialRefusal::Memory) => return Err(Stop::Memory),
        Err(UnmedialRefusal::NotQuartic { dart }) => {
            return Err(Stop::Refused(Refusal::Map(MapRule::Vertex { dart })));
        }
    };
    Ok(canonical_bytes(alloc, &image)?)
}

// `dual`
fn print_dual(alloc: Global, map: &RootedMap) -> Result<Vec<u8>, Stop>
    requires { IsRootedMap map.now }
    ensures { IsAnswerBy (AnswersTo (task_relation Dual) map.now) result }
{
    let image = dual(alloc, map)?;
    Ok(canonical_bytes(alloc, &image)?)
}

// `layers`
fn print_layers(alloc: Global, map: &RootedMap) -> Result<Vec<u8>, Stop>
    requires { IsRootedMap map.now }
    ensures { IsAnswerBy (AnswersTo (task_relation Layers) map.now) result }
{
    let map = canon(alloc, map)?;
    let found = layers(alloc, &map)?;
    let mut text = map_bytes(alloc, &map)?;
    put_numbers(alloc, b"layers", found.distances(), &mut text)?;
    put_numbers(alloc, b"parents", found.parents(), &mut text)?;
    Ok(text)
}

// Appends the line of the numbers.
fn put_numbers(
    alloc: Global,
    tag: &[u8],
    values: &[u32],
    text: &mut Vec<u8>,
) -> Result<(), AllocError>
    requires { IsTrue (is_tag tag.now) }
    ensures { OnOk result (text.new.items ≡ text.old.items ++ (list_line tag.now values.now ++ newline ∷ [])) }
{
    let list = numbers(alloc, values)?;
    put_list(alloc, tag, &list, text)
}

// The numbers as a list of their own.
fn numbers(alloc: Global, values: &[u32]) -> Result<NumList, AllocError>
    ensures { IfOk result (λ list. list ≡ values.now) }
{
    let mut wide = Vec::with_capacity(alloc, values.len())?;
    'values: for value in values.iter() {
        wide.push(u64::from(*value))?;
    }
    Ok(NumList::of(wide))
}
