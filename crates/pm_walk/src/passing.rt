//! One step of the walk, along the darts of a map.
ghost use Rattle.std.specs.Prelude.{◌≡◌, ◌*◌, ◌<◌, length};
ghost use Rattle.pm_walk.specs.Passing.{IsPassed};

use pm_map::RootedMap;

/// What the walk has done with an edge.
#[derive(Clone, Copy)]
pub enum Fate {
    /// It hasn't met the edge yet.
    Unmet,
    /// It met the edge, cut it and went on around the vertex.
    Cut,
    /// It met the edge and went on behind the other dart.
    Kept,
}

/// Whether the edge of a dart is cut, and whether the walk met it before.
#[derive(Clone, Copy, Debug, PartialEq, Eq)]
pub enum DartKind {
    /// The edge is cut here.
    CutFirst,
    /// The edge was cut before.
    CutAgain,
    /// The edge is kept, and met here for the first time.
    KeptFirst,
    /// The edge was kept before.
    KeptAgain,
}

/// What the walk finds at a dart.
#[derive(Clone, Copy)]
pub struct Step {
    /// The kind of the dart.
    pub kind: DartKind,
    /// The dart that the walk goes on to.
    pub next: u32,
}

/// Passes a dart of the map: where its edge is met for the first time, it is cut if the dart passes the test, and else kept.
/// `fates` has an entry for each edge, that of the darts `2k` and `2k + 1` at `k`.
pub fn pass(map: &RootedMap, dart: u32, passes: bool, fates: &mut [Fate]) -> Step
    requires within { dart < length map.now.sigma }
    requires edges { 2 * length fates.old ≡ length map.now.sigma }
    ensures { IsPassed map.now dart passes fates.old fates.new result }
{
    // Read for its clauses: the darts are few and come in twos.
    let _sigma = map.sigma();
    let twin = map.twin(dart);
    let edge = dart as usize / 2;
    match fates[edge] {
        Fate::Unmet => {
            if passes {
                fates[edge] = Fate::Cut;
                Step {
                    kind: DartKind::CutFirst,
                    next: map.next(dart),
                }
            } else {
                fates[edge] = Fate::Kept;
                Step {
                    kind: DartKind::KeptFirst,
                    next: map.next(twin),
                }
            }
        }
        Fate::Cut => Step {
            kind: DartKind::CutAgain,
            next: map.next(dart),
        },
        Fate::Kept => Step {
            kind: DartKind::KeptAgain,
            next: map.next(twin),
        },
    }
}
