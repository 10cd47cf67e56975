//! The objects of a simple triangulation, read from one of the two good starts of their arrangement.
ghost use Rattle.std.specs.Prelude.{◌≡◌, ◌-◌, ◌*◌, ◌<◌, ◌^◌, length, IfOk};
ghost use Rattle.pm_lehmer.specs.Lehmer.{IsArrangementCode};
ghost use Rattle.pm_tri.specs.Triangulations.{IsTriSize};
ghost use Rattle.pm_trisample.specs.Objects.{AreTriObjects, bits_of_objects, tri_arities};

use pm_lehmer::arrange;
use pm_objects::starts_of;
use pm_words::rotate;
use std::alloc::{AllocError, Global};

/// The objects as they are read, and where in their arrangement they start.
#[derive(Drop)]
pub(crate) struct TriObjects {
    pub(crate) start: u32,
    pub(crate) objects: Vec<u32>,
}

/// The arrangement of the objects with this code, read cyclically from the good start of this number.
pub(crate) fn objects_of_code(
    alloc: Global,
    n: u32,
    arities: &[u32],
    code: &[u64],
    which: u64,
) -> Result<TriObjects, AllocError>
    requires size { IsTriSize n }
    requires arities { arities.now ≡ tri_arities n }
    requires long { length code.now ≡ 4 * n - 2 }
    requires is_code { IsArrangementCode code.now }
    requires which { which < 2 }
    ensures { IfOk result (λ read. AreTriObjects n code.now which read.start read.objects.items) }
{
    let arrangement = arrange(alloc, code)?;
    let starts = starts_of(alloc, arities, &arrangement, 2)?;
    let start = starts[which as usize];
    let objects = rotate(alloc, &arrangement, start)?;
    Ok(TriObjects { start, objects })
}

/// The bits that the objects are: the first `n - 1` of them are ones.
pub(crate) fn bits_of(alloc: Global, n: u32, objects: &[u32]) -> Result<Vec<bool>, AllocError>
    requires { IsTriSize n }
    ensures { IfOk result (λ bits. bits.items ≡ bits_of_objects n objects.now) }
{
    let ones = n - 1;
    objects.iter().map(|object| *object < ones).collect(alloc)
}
