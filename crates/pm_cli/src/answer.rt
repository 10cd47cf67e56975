//! What commands answer, by class.
ghost use Rattle.std.specs.Prelude.{◌≤◌, length};
ghost use Rattle.pm_io.specs.declared.TheConstants.{MAX_BYTES as limit};
ghost use Rattle.pm_cli.specs.Answer.{AnswersReader, AnswersSize};
ghost use Rattle.pm_cli.specs.Classes.{sized, IsSize};
ghost use Rattle.pm_cli.specs.Commands.{IsReader};
ghost use Rattle.pm_cli.specs.Ending.{IsFirstRecords};
ghost use Rattle.pm_cli.specs.steps.Answering.{IsAnswerBy};
ghost use Rattle.pm_cli.specs.steps.Streams.{IsWritingRecords};

use crate::check::check;
use crate::class::{Class, Size};
use crate::close::close;
use crate::command::{Maker, Reader};
use crate::draw::make_of;
use crate::open::open_eulerian;
use crate::printing::print;
use crate::refusal::Stop;
use crate::sample::sample;
use crate::unsample::unsample;
use pm_class::MapClass;
use pm_euler::{Eulerian, Quartic};
use pm_general::{Bipartite, General};
use pm_io::Sink;
use std::alloc::Global;

// What a command that reads answers to a file.
pub(crate) fn answer(alloc: Global, reader: &Reader, bytes: &[u8]) -> Result<Vec<u8>, Stop>
    requires bytes { length bytes.now ≤ limit }
    requires reader { IsReader reader.now }
    ensures { IsAnswerBy (AnswersReader reader.now bytes.now) result }
{
    match reader {
        Reader::Close(trees) => close(alloc, *trees, bytes),
        Reader::OpenEulerian => open_eulerian(alloc, bytes),
        Reader::OfMap(task) => print(alloc, *task, bytes),
        Reader::Check(class) => check(alloc, *class, bytes),
        Reader::Unsample(Class::General) => unsample::<General>(alloc, bytes, General::MOST_EDGES),
        Reader::Unsample(Class::Quartic) => unsample::<Quartic>(alloc, bytes, Quartic::MOST_EDGES),
        Reader::Unsample(Class::Eulerian) => unsample::<Eulerian>(
            alloc,
            bytes,
            Eulerian::MOST_EDGES,
        ),
        Reader::Unsample(Class::Bipartite) => unsample::<Bipartite>(
            alloc,
            bytes,
            Bipartite::MOST_EDGES,
        ),
        Reader::Sample(Size::General(size)) => sample::<General>(alloc, size, bytes),
        Reader::Sample(Size::Quartic(size)) => sample::<Quartic>(alloc, size, bytes),
        Reader::Sample(Size::Eulerian(profile)) => sample::<Eulerian>(alloc, profile, bytes),
        Reader::Sample(Size::Bipartite(profile)) => sample::<Bipartite>(alloc, profile, bytes),
    }
}

// Does a task with a size, and writes its answer.
pub(crate) fn make<O: Sink>(
    alloc: Global,
    task: &Maker,
    size: &Size,
    out: &mut O,
) -> Result<(), Stop>
    requires { IsSize size.now }
    ensures { IsWritingRecords (AnswersSize task.now (sized size.now)) (IsFirstRecords task.now (sized size.now))
        (O.holds out.old) (O.holds out.new) (O.faults out.old) (O.faults out.new) result }
{
    match size {
        Size::General(size) => make_of::<General, O>(alloc, task, size, out),
        Size::Quartic(size) => make_of::<Quartic, O>(alloc, task, size, out),
        Size::Eulerian(profile) => make_of::<Eulerian, O>(alloc, task, profile, out),
        Size::Bipartite(profile) => make_of::<Bipartite, O>(alloc, task, profile, out),
    }
}
