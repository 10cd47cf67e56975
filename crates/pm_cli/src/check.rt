ghost use Rattle.std.specs.Prelude.{◌≤◌, Result, length, IfOk};
ghost use Rattle.pm_io.specs.declared.TheConstants.{MAX_BYTES as limit};
ghost use Rattle.pm_limits.specs.declared.TheConstants.{MAX_EDGES};
ghost use Rattle.pm_map.specs.declared.class_refusal.ClassRefusal.{ClassRefusal};
ghost use Rattle.pm_map.specs.ClassRules.{IsTriangulationAnswer};
ghost use Rattle.pm_map.specs.Rotation.{RotationSystem};
ghost use Rattle.pm_cli.specs.Classes.{counts_of};
ghost use Rattle.pm_cli.specs.MapAnswers.{AnswersMap, counting, IsCountsText};
ghost use Rattle.pm_cli.specs.steps.Answering.{IsAnswerBy};

use crate::class::{Checked, Class};
use crate::map_file::map_of_file;
use crate::refusal::Stop;
use pm_class::MapClass;
use pm_euler::{Eulerian, Quartic};
use pm_general::{Bipartite, General};
use pm_limits::MAX_EDGES;
use pm_map::{ClassRefusal, RootedMap};
use pm_text::put_number;
use pm_tri::tri_size;
use std::alloc::{AllocError, Global};

// A class of maps, by what it answers to a map. Each class that is sampled is one.
trait Measured {
    // How a map of the class is measured.
    type Size: Drop;

    // What a map is answered that should be in the class: its size, or the first rule that it breaks.
    ghost answers: { RotationSystem → Result Self.Size ClassRefusal → Type 0 };

    // The size of a map of the class, or the first of the class's rules that the map breaks. Want of memory may come at any map.
    fn size_of(alloc: Global, map: &RootedMap) -> Result<Self::Size, ClassRefusal>
        ensures { answers map.now result };
}

impl<C: MapClass> Measured for C {
    type Size = C::Size;

    ghost answers = { C.MapClass.answers };

    fn size_of(alloc: Global, map: &RootedMap) -> Result<C::Size, ClassRefusal> {
        <C as MapClass>::size_of(alloc, map)
    }
}

// Simple triangulations.
struct Tri;

impl Measured for Tri {
    type Size = u32;

    ghost answers = { IsTriangulationAnswer };

    fn size_of(alloc: Global, map: &RootedMap) -> Result<u32, ClassRefusal> {
        tri_size(alloc, map)
    }
}

// The line of how many vertices, edges and faces the map has.
pub(crate) fn counts_text(alloc: Global, map: &RootedMap) -> Result<Vec<u8>, AllocError>
    ensures { IfOk result (λ text. IsCountsText map.now text.items) }
{
    let mut marks = vec![in alloc; false; map.sigma().len()]?;
    let counts = map.counts(&mut marks);
    let mut text = Vec::new(alloc);
    text.extend_from_slice(b"ok ")?;
    put_number(alloc, u64::from(counts.vertices), &mut text)?;
    text.push(b' ')?;
    put_number(alloc, u64::from(counts.edges), &mut text)?;
    text.push(b' ')?;
    put_number(alloc, u64::from(counts.faces), &mut text)?;
    text.push(b'\n')?;
    Ok(text)
}

// `check CLASS`: how many vertices, edges and faces the map of the class has that is in the file.
pub(crate) fn check(alloc: Global, class: Checked, bytes: &[u8]) -> Result<Vec<u8>, Stop>
    requires { length bytes.now ≤ limit }
    ensures { IsAnswerBy (AnswersMap (counts_of class) bytes.now) result }
{
    match class {
        Checked::Sampled(Class::General) => check_class::<General>(
            alloc,
            bytes,
            General::MOST_EDGES,
        ),
        Checked::Sampled(Class::Quartic) => check_class::<Quartic>(
            alloc,
            bytes,
            Quartic::MOST_EDGES,
        ),
        Checked::Sampled(Class::Eulerian) => check_class::<Eulerian>(
            alloc,
            bytes,
            Eulerian::MOST_EDGES,
        ),
        Checked::Sampled(Class::Bipartite) => check_class::<Bipartite>(
            alloc,
            bytes,
            Bipartite::MOST_EDGES,
        ),
        Checked::Tri => check_class::<Tri>(alloc, bytes, MAX_EDGES),
    }
}

// The same for one class.
fn check_class<C: Measured>(alloc: Global, bytes: &[u8], most_edges: u32) -> Result<Vec<u8>, Stop>
    requires bytes { length bytes.now ≤ limit }
    requires most { most_edges ≤ MAX_EDGES }
    ensures { IsAnswerBy (AnswersMap (counting most_edges C.answers) bytes.now) result }
{
    let map = map_of_file(alloc, bytes, most_edges)?;
    let _size = C::size_of(alloc, &map)?;
    Ok(counts_text(alloc, &map)?)
}
