//! Sampling simple triangulations.
ghost use Rattle.std.specs.Prelude.{◌≡◌, ◌-◌, ◌*◌, ◌<◌, length, IfOk};
ghost use Rattle.pm_class.specs.Sampling.{IsSampled, IsSampledUnnamed, IsSampling};
ghost use Rattle.pm_lehmer.specs.Lehmer.{IsArrangementCode};
ghost use Rattle.pm_lists.specs.Valid.{IsValidList};
ghost use Rattle.pm_tri.specs.Bounds.{tri_choices, tri_residues};
ghost use Rattle.pm_tri.specs.Triangulations.{IsTriSize};
ghost use Rattle.pm_trisample.specs.Made.{MakesTree};
ghost use Rattle.pm_trisample.specs.Samples.{IsTriSample};
ghost use Rattle.pm_trisample.specs.Triangulated.{IsTriangulated};

use crate::anew::closed_anew;
use crate::objects::{bits_of, objects_of_code};
use pm_canon::canon;
use pm_class::{Sample, SampleRefusal};
use pm_lists::{NumList, check_list};
use pm_objects::{arities_of, codes_by_range};
use pm_tri::{TriTree, tri_choice_bounds, tri_tree_of_bits};
use std::alloc::{AllocError, Global};

/// The simple triangulation of size `n`, which is from 1 and has `3n` at most `MAX_EDGES`, and the residue that the choices give
/// (Poulalhon and Schaeffer 2006), in time linear in `n` but for the arrangement codes.
///
/// Choices are the arrangement code of `4n - 2` objects, of which the first `n - 1` are ones and the others zeros; then which of the
/// two good starts the objects are read from, as the bits of a stem tree; and then which of the tree's two runs of stems the plant
/// begins. The residue is the start in the arrangement, the arrangement code of the ones and that of the zeros, each as they come from
/// there, and the number of the old plant among the `2n` stems. The map is canonical.
///
/// # Errors
///
/// `List` exactly where the choices aren't valid for [`tri_choice_bounds`], or `Memory`, which may come at any list.
pub fn tri_sample(alloc: Global, n: u32, choices: &[u64]) -> Result<Sample, SampleRefusal>
    requires { IsTriSize n }
    ensures { IsSampling (tri_choices n) (tri_residues n) (IsTriangulated n) (IsTriSample n choices.now) choices.now result }
{
    let bounds = tri_choice_bounds(alloc, n)?;
    if let Err(refusal) = check_list(choices, &bounds) {
        return Err(SampleRefusal::List(refusal));
    }
    Ok(tri_sample_valid(alloc, n, choices)?)
}

/// The map and the residue that choices give which are valid, as those that were drawn.
///
/// # Errors
///
/// `AllocError` where memory runs out.
pub fn tri_sample_valid(alloc: Global, n: u32, choices: &[u64]) -> Result<Sample, AllocError>
    requires size { IsTriSize n }
    requires valid { IsValidList choices.now (tri_choices n) }
    ensures { IfOk result (λ sample. IsSampled (tri_choices n) (tri_residues n) (IsTriangulated n) (IsTriSample n choices.now) choices.now sample) }
{
    let unnamed = tri_sample_unnamed(alloc, n, choices)?;
    let map = canon(alloc, &unnamed.map)?;
    Ok(Sample {
        map,
        residue: unnamed.residue,
    })
}

/// The same, with any names of the map's darts: the canonical map of that map is the one that [`tri_sample_valid`] gives.
///
/// # Errors
///
/// `AllocError` where memory runs out.
pub fn tri_sample_unnamed(alloc: Global, n: u32, choices: &[u64]) -> Result<Sample, AllocError>
    requires size { IsTriSize n }
    requires valid { IsValidList choices.now (tri_choices n) }
    ensures { IfOk result (λ sample. IsSampledUnnamed (tri_choices n) (tri_residues n) (IsTriangulated n) (IsTriSample n choices.now) choices.now sample) }
{
    let objects = 4 * n as usize - 2;
    let made = make(alloc, n, &choices[..objects], choices[objects])?;
    let closed = closed_anew(alloc, &made.tree, choices[objects + 1])?;
    let mut residue = made.rest;
    residue.push(u64::from(closed.old_plant))?;
    Ok(Sample {
        map: closed.map,
        residue: NumList::of(residue),
    })
}

/// A stem tree, and the rest that the choices tell beside it.
#[derive(Drop)]
struct Made {
    tree: TriTree,
    rest: Vec<u64>,
}

/// The stem tree whose bits the objects are, which are arranged by the code and read from the good start of this number; and their
/// start and their codes.
fn make(alloc: Global, n: u32, code: &[u64], which: u64) -> Result<Made, AllocError>
    requires size { IsTriSize n }
    requires long { length code.now ≡ 4 * n - 2 }
    requires is_code { IsArrangementCode code.now }
    requires which { which < 2 }
    ensures { IfOk result (λ made. MakesTree n code.now which made.tree made.rest.items) }
{
    let ranges = [(4, n - 1)];
    let arities = arities_of(alloc, &ranges)?;
    let read = objects_of_code(alloc, n, &arities, code, which)?;
    let bits = bits_of(alloc, n, &read.objects)?;
    let tree = tri_tree_of_bits(alloc, &bits)?;
    let codes = codes_by_range(alloc, &ranges, &arities, &read.objects)?;
    let mut rest = Vec::new(alloc);
    rest.push(u64::from(read.start))?;
    rest.extend_from_slice(&codes)?;
    Ok(Made { tree, rest })
}
