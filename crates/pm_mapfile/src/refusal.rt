//! Why bytes are no map file, or not that of a map.
ghost use Rattle.std.specs.Prelude.{◌≡◌};
ghost use Rattle.pm_mapfile.specs.steps.Refusals.{refusal_of_text, refusal_of_map};

use crate::read::TextRefusal;
use pm_map::MapRefusal;

/// Why a map text or a map file is refused. Each comes exactly where its rule is the first that is broken, in this order.
#[derive(Clone, Copy, Debug, PartialEq, Eq)]
pub enum FileRefusal {
    /// There is no memory left. It may come at any bytes.
    Memory,
    /// The first line that breaks the form, counted from 1.
    Text { line: u32 },
    /// The lines are in order and make no map that is taken. This is never [`MapRefusal::Memory`].
    Map(MapRefusal),
}

impl FileRefusal {
    /// The same refusal, of a map file.
    pub(crate) fn of_text(refusal: TextRefusal) -> FileRefusal
        ensures { result ≡ refusal_of_text refusal }
    {
        match refusal {
            TextRefusal::Memory => FileRefusal::Memory,
            TextRefusal::Text { line } => FileRefusal::Text { line },
        }
    }

    /// The same refusal, of a map file.
    pub(crate) fn of_map(refusal: MapRefusal) -> FileRefusal
        ensures { result ≡ refusal_of_map refusal }
    {
        match refusal {
            MapRefusal::Memory => FileRefusal::Memory,
            rule => FileRefusal::Map(rule),
        }
    }
}
