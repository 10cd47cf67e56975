//! The walk that opens a map, and the word that is read along it.
ghost use Rattle.std.specs.Prelude.{◌≡◌, ◌*◌, ◌<◌, length, IfOk};
ghost use Rattle.pm_limits.specs.declared.TheConstants.{MAX_DEGREE};
ghost use Rattle.pm_map.specs.ClassRules.{AllAdmitted};
ghost use Rattle.pm_map.specs.Rotation.{structure_of};
ghost use Rattle.pm_map.specs.declared.admitted.Degrees.TheVariants.{EvenUpTo};
ghost use Rattle.pm_distances.specs.Distances.{AreFaceDistances};
ghost use Rattle.pm_open.specs.Opening.{IsOpening};
ghost use Rattle.pm_walk.specs.Passing.{IsPassed};
ghost use Rattle.pm_open.specs.steps.Spelling.{is_further, letter_for};

use pm_brackets::{CLOSE, OPEN};
use pm_map::RootedMap;
use pm_trees::{BUD, LEAF};
use pm_walk::{DartKind, Fate, Step, pass};
use std::alloc::{AllocError, Global};

/// The word of the opening of a map, read along the walk from the root; the root itself is the plant, which isn't written.
/// It takes time linear in the darts.
pub(crate) fn word_along(
    alloc: Global,
    map: &RootedMap,
    distances: &[u32],
) -> Result<Vec<u8>, AllocError>
    requires some { 0 < length map.now.sigma }
    requires degrees { AllAdmitted (structure_of map.now) (EvenUpTo MAX_DEGREE) }
    requires distances { AreFaceDistances map.now distances.now }
    ensures { IfOk result (λ word. IsOpening map.now word.items) }
{
    let darts = map.sigma().len();
    let mut fates = vec![in alloc; Fate::Unmet; darts / 2]?;
    let mut word = Vec::with_capacity(alloc, darts - 1)?;
    let mut dart = step_at(map, distances, map.root(), &mut fates).next;
    'walk: for _place in 1..darts {
        let step = step_at(map, distances, dart, &mut fates);
        word.push(letter(step.kind))?;
        dart = step.next;
    }
    Ok(word)
}

/// Passes a dart: where its edge is met for the first time, it is cut if the face beyond is further.
fn step_at(map: &RootedMap, distances: &[u32], dart: u32, fates: &mut [Fate]) -> Step
    requires within { dart < length map.now.sigma }
    requires distances { length distances.now ≡ length map.now.sigma }
    requires edges { 2 * length fates.old ≡ length map.now.sigma }
    ensures { IsPassed map.now dart (is_further distances.now dart) fates.old fates.new result }
{
    let further = distances[dart as usize] < distances[map.twin(dart) as usize];
    pass(map, dart, further, fates)
}

/// The letter of a dart of this kind, where it isn't the root.
fn letter(kind: DartKind) -> u8
    ensures { result ≡ letter_for kind }
{
    match kind {
        DartKind::CutFirst => BUD,
        DartKind::CutAgain => LEAF,
        DartKind::KeptFirst => OPEN,
        DartKind::KeptAgain => CLOSE,
    }
}
