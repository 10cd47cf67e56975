//! Ranges of objects, each with the arity of its objects and their number.
ghost use Rattle.std.specs.Prelude.{◌≡◌, IfOk};
ghost use Rattle.pm_objects.specs.Objects.{arities_of, arity_of};

use std::alloc::{AllocError, Global};

/// The arities of the node objects of these ranges, an arity and a count each.
///
/// # Errors
///
/// `AllocError` where memory runs out.
pub fn arities_of(alloc: Global, ranges: &[(u32, u32)]) -> Result<Vec<u32>, AllocError>
    ensures { IfOk result (λ arities. arities.items ≡ arities_of ranges.now) }
{
    let mut arities = Vec::new(alloc);
    for range in ranges {
        let copies = vec![in alloc; range.0; range.1 as usize]?;
        arities.extend_from_slice(&copies)?;
    }
    Ok(arities)
}

/// The arity of an object: that of a node, or 0 where it is a leaf. Of a leaf the last node's arity is read and taken no
/// times, so that no step branches where leaves and nodes are mixed.
pub(crate) fn arity_of(arities: &[u32], object: u32) -> u32
    ensures { result ≡ arity_of arities.now object }
{
    let Some(last) = arities.len().checked_sub(1) else {
        return 0;
    };
    let object = object as usize;
    arities[object.min(last)] * u32::from(object <= last)
}
