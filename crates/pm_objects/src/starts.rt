//! Where an arrangement of the objects starts as a preorder.
ghost use Rattle.std.specs.Prelude.{◌≡◌, ◌+◌, ◌<◌, ◌≤◌, ◌^◌, All, IfOk, length, sum};
ghost use Rattle.pm_perm.specs.Permutation.{IsPermutationList};
ghost use Rattle.pm_words.specs.Plane.{letter_of};
ghost use Rattle.pm_words.specs.Word.{IsGoodStarts};
ghost use Rattle.pm_objects.specs.Objects.{arity_of, letters_of};

use crate::ranges::arity_of;
use pm_words::good_starts;
use std::alloc::{AllocError, Global};

/// The places from which an arrangement of the objects, read cyclically, is the preorder of so many plane trees, in rising
/// order. There are as many of them. The node objects have these arities, and there are so many more objects than children.
///
/// # Errors
///
/// `AllocError` where memory runs out.
pub fn starts_of(
    alloc: Global,
    arities: &[u32],
    arrangement: &[u32],
    goal: u32,
) -> Result<Vec<u32>, AllocError>
    requires low { All (λ arity. arity < 2 ^ 31) arities.now }
    requires permute { IsPermutationList arrangement.now }
    requires few { length arrangement.now < 2 ^ 32 }
    requires nodes { length arities.now ≤ length arrangement.now }
    requires goal { 0 < goal }
    requires many { length arrangement.now ≡ sum arities.now + goal }
    ensures { IfOk result (λ starts. IsGoodStarts goal (letters_of arities.now arrangement.now) starts.items) }
{
    let letters = letters_of(alloc, arities, arrangement)?;
    good_starts(alloc, &letters, goal)
}

/// The word of the objects: the arity of each, less one.
fn letters_of(alloc: Global, arities: &[u32], objects: &[u32]) -> Result<Vec<i32>, AllocError>
    requires { All (λ arity. arity < 2 ^ 31) arities.now }
    ensures { IfOk result (λ letters. letters.items ≡ letters_of arities.now objects.now) }
{
    objects
        .iter()
        .map(|object| letter_of(arities, *object))
        .collect(alloc)
}

/// The arity of an object, less one.
fn letter_of(arities: &[u32], object: u32) -> i32
    requires { All (λ arity. arity < 2 ^ 31) arities.now }
    ensures { result ≡ letter_of (arity_of arities.now object) }
{
    arity_of(arities, object) as i32 - 1
}
