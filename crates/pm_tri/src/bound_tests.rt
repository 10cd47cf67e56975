//! The bounds of small triangulations.
use super::*;
use std::test::Fail;

#[test]
fn bounds(rt: HostRuntime) -> Result<(), Fail> {
    let choices = tri_choice_bounds(rt.alloc(), 1)?;
    assert_eq!(rt; choices.values(), [2, 1, 2, 2].as_slice());
    let residues = tri_residue_bounds(rt.alloc(), 1)?;
    assert_eq!(rt; residues.values(), [2, 2, 1, 2].as_slice());
    let choices = tri_choice_bounds(rt.alloc(), 2)?;
    assert_eq!(rt; choices.values(), [6, 5, 4, 3, 2, 1, 2, 2].as_slice());
    let residues = tri_residue_bounds(rt.alloc(), 2)?;
    assert_eq!(rt; residues.values(), [6, 1, 5, 4, 3, 2, 1, 4].as_slice());
    Ok(())
}
