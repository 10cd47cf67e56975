use super::*;
use std::test::Fail;

#[test]
fn inverts_and_leads(rt: HostRuntime) -> Result<(), Fail> {
    let values = [2, 0, 1, 3];
    let back = inverse(rt.alloc(), &values)?;
    assert_eq!(rt; back.as_slice(), [1, 2, 0, 3].as_slice());
    let least = leaders(rt.alloc(), &values)?;
    assert_eq!(rt; least.as_slice(), [0, 0, 0, 3].as_slice());
    Ok(())
}

#[test]
fn counts_and_exchanges(rt: HostRuntime) {
    let mut values = [2, 0, 1, 3];
    let mut marks = [true; 4];
    assert_eq!(rt; is_permutation(&values, &mut marks), true);
    assert_eq!(rt; is_permutation(&[1, 2, 2, 0], &mut marks), false);
    assert_eq!(rt; marks.as_slice(), [true, true, true, false].as_slice());
    assert_eq!(rt; count_cycles(&values, &mut marks), 2);
    exchange(&mut values, 0, 1);
    assert_eq!(rt; values.as_slice(), [0, 2, 1, 3].as_slice());
    assert_eq!(rt; count_cycles(&values, &mut marks), 3);
    exchange(&mut values, 1, 3);
    assert_eq!(rt; count_cycles(&values, &mut marks), 2);
}

#[test]
fn empty(rt: HostRuntime) -> Result<(), Fail> {
    assert_eq!(rt; is_permutation(&[], &mut []), true);
    assert_eq!(rt; count_cycles(&[], &mut []), 0);
    assert_eq!(rt; inverse(rt.alloc(), &[])?.len(), 0);
    assert_eq!(rt; leaders(rt.alloc(), &[])?.len(), 0);
    Ok(())
}
