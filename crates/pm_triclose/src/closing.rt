//! The rotation of the closure of a balanced stem tree, in one pass along the letters of its whole tree.
ghost use Rattle.std.specs.Prelude.{◌≡◌, ◌<◌, ◌^◌, ◌∷◌, ◌++◌, [], length, IfOk, OnOk};
ghost use Rattle.pm_map.specs.Rotation.{structure_of};
ghost use Rattle.pm_tri.specs.Runs.{IsBalanced};
ghost use Rattle.pm_tri.specs.StemTree.{IsInOrder, contour};
ghost use Rattle.pm_tri.specs.Whole.{whole};
ghost use Rattle.pm_triclose.specs.WholeClosure.{ClosesAhead, IsWholeClosure};

use pm_brackets::{CLOSE, OPEN};
use pm_tri::{STEM, TriTree};
use std::alloc::{AllocError, Global};

/// A stem that hasn't closed yet.
#[derive(Clone, Copy)]
struct OpenStem {
    dart: u32,
    /// Whether the first of the two sides was read that it waits for.
    half: bool,
}

/// The rotation of the closure of a balanced stem tree, told by its whole tree, in time linear in its letters. The root is dart 0.
pub(crate) fn whole_rotation(alloc: Global, tree: &TriTree) -> Result<Vec<u32>, AllocError>
    requires { IsBalanced (contour tree.now) }
    ensures { IfOk result (λ sigma. IsWholeClosure (contour (whole tree.now)) (structure_of (record { sigma = sigma.items; root = 0 }))) }
{
    let letters = whole_letters(alloc, tree.letters())?;
    closed_rotation(alloc, &letters)
}

/// The letters of the whole tree.
fn whole_letters(alloc: Global, word: &[u8]) -> Result<Vec<u8>, AllocError>
    requires { 0 < length word.now }
    ensures { IfOk result (λ letters. letters.items ≡ whole word.now) }
{
    let mut letters = Vec::with_capacity(alloc, word.len() + 3)?;
    letters.extend_from_slice(&word[..word.len() - 1])?;
    letters.extend_from_slice(&[OPEN, OPEN, CLOSE, CLOSE])?;
    Ok(letters)
}

/// Two darts more, which aren't linked yet: the first of them.
fn new_edge(sigma: &mut Vec<u32>) -> Result<u32, AllocError>
    requires { length sigma.old.items < 2 ^ 32 }
    ensures longer { OnOk result (sigma.new.items ≡ sigma.old.items ++ 0 ∷ 0 ∷ []) }
    ensures first { IfOk result (λ dart. dart ≡ length sigma.old.items) }
{
    let dart = sigma.len() as u32;
    sigma.push(0)?;
    sigma.push(0)?;
    Ok(dart)
}

/// The rotation of the closure of a word all of whose stems close ahead. Behind the dart that was linked last comes that of the
/// place ahead. Each open stem waits for two sides: a side counts for the last one, and where it closes that one, for the one
/// before it too.
fn closed_rotation(alloc: Global, letters: &[u8]) -> Result<Vec<u32>, AllocError>
    requires in_order { IsInOrder letters.now }
    requires small { length letters.now < 2 ^ 30 }
    requires ahead { ClosesAhead (contour letters.now) }
    ensures { IfOk result (λ sigma. IsWholeClosure (contour letters.now) (structure_of (record { sigma = sigma.items; root = 0 }))) }
{
    // The whole tree of a tree with n nodes has 4n letters, and its closure 6n darts.
    let mut sigma = Vec::with_capacity(alloc, letters.len() / 2 * 3)?;
    let mut brackets: Vec<u32> = Vec::new(alloc);
    let mut stems: Vec<OpenStem> = Vec::new(alloc);
    let mut last = new_edge(&mut sigma)?;
    stems.push(OpenStem {
        dart: last,
        half: false,
    })?;
    'letters: for letter in letters {
        if *letter == STEM {
            let dart = new_edge(&mut sigma)?;
            sigma[last as usize] = dart;
            stems.push(OpenStem { dart, half: false })?;
            last = dart;
        } else {
            if *letter == OPEN {
                let dart = new_edge(&mut sigma)?;
                sigma[last as usize] = dart;
                brackets.push(dart)?;
                last = dart + 1;
            } else {
                let dart = brackets.pop().unwrap();
                sigma[last as usize] = dart + 1;
                last = dart;
            }
            'side: while let Some(stem) = stems.pop() {
                if !stem.half {
                    stems.push(OpenStem {
                        dart: stem.dart,
                        half: true,
                    })?;
                    break 'side;
                }
                sigma[last as usize] = stem.dart + 1;
                last = stem.dart + 1;
            }
        }
    }
    sigma[last as usize] = 0;
    Ok(sigma)
}
