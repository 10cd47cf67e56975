//! A first program over the libraries: draws a map with 200 vertices of degree 2 and 300 of degree 4 from a seed, and
//! prints how many vertices, edges and faces it has, and then the darts around the face of its root.
#![tactic(auto)]

ghost use Rattle.std.specs.Prelude.{IfOk};
ghost use Rattle.pm_map.specs.Classes.{IsEulerian};
ghost use Rattle.pm_map.specs.Rotation.{structure_of};
ghost use Rattle.pm_trees.specs.Pairs.{IsProfile};

use pm_class::MapClass;
use pm_draw::{draw_list, rng_of};
use pm_euler::Eulerian;
use pm_map::RootedMap;
use pm_trees::Profile;
use std::alloc::{AllocError, Global};
use std::process::ExitCode;

/// A map that has as many vertices of each degree as the profile says, drawn from the seed.
fn draw_map(alloc: Global, profile: &Profile, seed: u64) -> Result<RootedMap, AllocError>
    requires { IsProfile profile.now }
    ensures { IfOk result (λ map. IsEulerian (structure_of map) profile.now) }
{
    let bounds = Eulerian::choice_bounds(alloc, profile)?;
    let choices = draw_list(alloc, &mut rng_of(seed), &bounds)?;
    let sample = Eulerian::sample_valid(alloc, profile, choices.values())?;
    Ok(sample.map)
}

/// The numbers of the vertices, edges and faces, and the darts around the face of the root.
fn describe(alloc: Global, map: &RootedMap) -> Result<String, AllocError> {
    let mut marks = vec![in alloc; false; map.sigma().len()]?;
    let counts = map.counts(&mut marks);
    let mut text = format!(in alloc; "{} {} {}", counts.vertices, counts.edges, counts.faces)?;
    if map.sigma().is_empty() {
        return Ok(text);
    }
    for dart in map.face_walk(map.root()) {
        text.push_str(&format!(in alloc; " {dart}")?)?;
    }
    Ok(text)
}

fn main(rt: HostRuntime) -> ExitCode {
    let Ok(profile) = Profile::of_pairs(rt.alloc(), &[(2, 200), (4, 300)]) else {
        return ExitCode::FAILURE;
    };
    let Ok(map) = draw_map(rt.alloc(), &profile, 7) else {
        return ExitCode::FAILURE;
    };
    let Ok(text) = describe(rt.alloc(), &map) else {
        return ExitCode::FAILURE;
    };
    let Ok(()) = println!(rt; "{text}") else {
        return ExitCode::FAILURE;
    };
    ExitCode::SUCCESS
}

#[cfg(test)]
mod tests;
