//! The codes of the objects, range by range.
ghost use Rattle.std.specs.Prelude.{◌≡◌, ◌^◌, ◌<◌, ◌≤◌, length, take, IfOk};
ghost use Rattle.pm_lehmer.specs.Lehmer.{code_of};
ghost use Rattle.pm_objects.specs.Codes.{codes_by_range};
ghost use Rattle.pm_objects.specs.Objects.{arities_of, arity_of, objects_of};

use crate::ranges::arity_of;
use pm_lehmer::code;
use std::alloc::{AllocError, Global};

/// For each range the arrangement code of its objects, as they come, and then that of the leaf objects. The node objects
/// have these arities.
///
/// # Errors
///
/// `AllocError` where memory runs out.
pub fn codes_by_range(
    alloc: Global,
    ranges: &[(u32, u32)],
    arities: &[u32],
    objects: &[u32],
) -> Result<Vec<u64>, AllocError>
    requires arities { arities.now ≡ arities_of ranges.now }
    requires few { length objects.now < 2 ^ 32 }
    ensures { IfOk result (λ codes. codes.items ≡ codes_by_range ranges.now objects.now) }
{
    let mut codes = Vec::with_capacity(alloc, objects.len())?;
    let mut kept = vec![in alloc; 0u32; objects.len() + 1]?;
    for range in ranges {
        let node_code = code_of_arity(alloc, arities, range.0, objects, &mut kept)?;
        codes.extend_from_slice(&node_code)?;
    }
    let leaf_code = code_of_arity(alloc, arities, 0, objects, &mut kept)?;
    codes.extend_from_slice(&leaf_code)?;
    Ok(codes)
}

/// The code of the objects of this arity, as they come. The list is for these objects, and its entries may be any.
fn code_of_arity(
    alloc: Global,
    arities: &[u32],
    arity: u32,
    objects: &[u32],
    kept: &mut [u32],
) -> Result<Vec<u64>, AllocError>
    requires few { length objects.now < 2 ^ 32 }
    requires long { length objects.now < length kept.old }
    ensures { IfOk result (λ codes. codes.items ≡ code_of (objects_of arities.now arity objects.now)) }
{
    let many = keep_objects(arities, arity, objects, kept);
    code(alloc, &kept[..many])
}

/// Writes the objects of this arity, as they come, to the prefix of the list, and says how many there are. Each object is
/// written behind those that are kept, so that no step branches.
fn keep_objects(arities: &[u32], arity: u32, objects: &[u32], kept: &mut [u32]) -> usize
    requires { length objects.now < length kept.old }
    ensures within { result ≤ length objects.now }
    ensures kept { take result kept.new ≡ objects_of arities.now arity objects.now }
{
    let mut many = 0;
    'objects: for object in objects {
        kept[many] = *object;
        many += usize::from(arity_of(arities, *object) == arity);
    }
    many
}
