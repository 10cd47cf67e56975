//! Worked values.
use crate::{
    Bounds, ListRefusal, ListTextRefusal, NumList, check_list, line_spells_one_list,
    list_has_one_line, put_list, read_list,
};
use std::test::Fail;

#[test]
fn lines_that_spell_a_list(rt: HostRuntime) -> Result<(), Fail> {
    let choices = read_list(rt.alloc(), b"choices", b"choices 0 2 0")?;
    assert_eq!(rt; choices.values(), [0, 2, 0].as_slice());
    let empty = read_list(rt.alloc(), b"residue", b"residue")?;
    assert!(rt; empty.values().is_empty());
    let greatest = read_list(rt.alloc(), b"residue", b"residue 18446744073709551615")?;
    assert_eq!(rt; greatest.values(), [18446744073709551615].as_slice());
    Ok(())
}

#[test]
fn lines_that_spell_none(rt: HostRuntime) {
    let lines: [&[u8]; 10] = [
        b"",
        b"choice 0",
        b"residue 0",
        b" choices 0",
        b"choices  0",
        b"choices 0  2",
        b"choices 0 ",
        b"choices 02",
        b"choices 18446744073709551616",
        b"choices 0\n",
    ];
    for line in lines {
        let refusal = read_list(rt.alloc(), b"choices", line).err();
        assert_eq!(rt; refusal, Some(ListTextRefusal::Text));
    }
}

#[test]
fn lines_that_are_put(rt: HostRuntime) -> Result<(), Fail> {
    let mut text = Vec::from_slice(rt.alloc(), b"end\n")?;
    let residue = NumList::of(Vec::from_slice(rt.alloc(), &[2, 0, 18446744073709551615])?);
    put_list(rt.alloc(), b"residue", &residue, &mut text)?;
    put_list(
        rt.alloc(),
        b"choices",
        &NumList::of(Vec::new(rt.alloc())),
        &mut text,
    )?;
    assert_eq!(rt;
        text.as_slice(),
        b"end\nresidue 2 0 18446744073709551615\nchoices\n".as_slice()
    );
    list_has_one_line();
    line_spells_one_list();
    Ok(())
}

#[test]
fn lists_and_bounds(rt: HostRuntime) -> Result<(), Fail> {
    let bounds = Bounds::of(Vec::from_slice(rt.alloc(), &[2, 3, 2])?);
    assert_eq!(rt; bounds.values(), [2, 3, 2].as_slice());
    assert_eq!(rt; check_list(&[0, 2, 1], &bounds), Ok(()));
    assert_eq!(rt;
        check_list(&[1, 3, 2], &bounds),
        Err(ListRefusal::Entry {
            place: 1,
            value: 3,
            bound: 3
        })
    );
    assert_eq!(rt;
        check_list(&[0, 0, 5], &bounds),
        Err(ListRefusal::Entry {
            place: 2,
            value: 5,
            bound: 2
        })
    );
    assert_eq!(rt;
        check_list(&[9], &bounds),
        Err(ListRefusal::Length { want: 3, have: 1 })
    );
    Ok(())
}
