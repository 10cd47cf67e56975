ghost use Rattle.std.specs.Prelude.{◌≡◌, ◌++◌, codes, IfOk};
ghost use Rattle.pm_cli.specs.MapAnswers.{counts_line};
ghost use Rattle.pm_cli.specs.Trip.{IsTrip};

use crate::check::counts_text;
use pm_class::{MapClass, unsample_undoes_unnamed};
use pm_draw::{draw_list, rng_of};
use pm_map::RootedMap;
use std::alloc::{AllocError, Global};

// `trip CLASS SIZE SEED`: draws a list of choices, samples it, and unsamples what it gave. By the laws of the class that is
// the list that was drawn. The text counts the vertices, edges and faces of the map.
pub(crate) fn trip<C: MapClass>(
    alloc: Global,
    size: &C::Size,
    seed: u64,
) -> Result<Vec<u8>, AllocError>
    requires { C.is_size size.now }
    ensures { IfOk result (λ text. IsTrip (C.choice_limits size.now) (C.samples size.now) seed text.items) }
{
    let bounds = C::choice_bounds(alloc, size)?;
    let mut rng = rng_of(seed);
    let choices = draw_list(alloc, &mut rng, &bounds)?;
    drop(bounds);
    let sample = C::sample_unnamed(alloc, size, choices.values())?;
    C::is_one_to_one();
    let back = C::unsample_valid(alloc, size, &sample.map, sample.residue.values())?;
    unsample_undoes_unnamed::<C>();
    if back.values() != choices.values() {
        unreachable!()
    }
    trip_text(alloc, &sample.map)
}

// `trip ` and the line of how many vertices, edges and faces the map has.
fn trip_text(alloc: Global, map: &RootedMap) -> Result<Vec<u8>, AllocError>
    ensures { IfOk result (λ text. text.items ≡ codes "trip " ++ counts_line map.now) }
{
    let mut text = Vec::new(alloc);
    text.extend_from_slice(b"trip ")?;
    text.extend_from_slice(&counts_text(alloc, map)?)?;
    Ok(text)
}
