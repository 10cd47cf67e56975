//! Worked values, from a generator and a method that were written apart from the code.
use crate::{draw_list, rng_of};
use pm_lists::Bounds;
use rand_core::Rng;
use std::test::Fail;

#[test]
fn words_of_a_seed(rt: HostRuntime) {
    let mut seven = rng_of(7);
    assert_eq!(rt; seven.next_u64(), 3794662832601335865);
    assert_eq!(rt; seven.next_u64(), 15240968555123464989);
    let mut greatest = rng_of(u64::MAX);
    assert_eq!(rt; greatest.next_u64(), 18113429158285593766);
}

#[test]
fn lists_from_one_stream(rt: HostRuntime) -> Result<(), Fail> {
    let mut rng = rng_of(7);
    let bounds = Bounds::of(Vec::from_slice(rt.alloc(), &[2, 6, 3, 3, 2])?);
    let first = draw_list(rt.alloc(), &mut rng, &bounds)?;
    assert_eq!(rt; first.values(), [0, 4, 0, 1, 1].as_slice());
    let second = draw_list(rt.alloc(), &mut rng, &bounds)?;
    assert_eq!(rt; second.values(), [1, 4, 1, 1, 0].as_slice());
    Ok(())
}

// A bound of 1 takes a word too, and the bounds above 2^63 often take two.
#[test]
fn least_and_greatest_bounds(rt: HostRuntime) -> Result<(), Fail> {
    let mut rng = rng_of(0);
    let bounds = Bounds::of(Vec::from_slice(
        rt.alloc(),
        &[1, u64::MAX, 1, 10000000000000000000, 9223372036854775809],
    )?);
    let list = draw_list(rt.alloc(), &mut rng, &bounds)?;
    assert_eq!(rt;
        list.values(),
        [
            0,
            16742835166660011749,
            0,
            1112108618752651658,
            1298656816089498771
        ]
        .as_slice()
    );
    let empty = Bounds::of(Vec::new(rt.alloc()));
    let none = draw_list(rt.alloc(), &mut rng, &empty)?;
    assert!(rt; none.values().is_empty());
    Ok(())
}

// The second word decides: it adds one to the first number of the first list, and nothing to that of the second.
#[test]
fn second_words(rt: HostRuntime) -> Result<(), Fail> {
    let bounds = Bounds::of(Vec::from_slice(rt.alloc(), &[13835058055282163712; 2])?);
    let carried = draw_list(rt.alloc(), &mut rng_of(0), &bounds)?;
    assert_eq!(rt;
        carried.values(),
        [11510927608897191559, 3153834935436830989].as_slice()
    );
    let plain = draw_list(rt.alloc(), &mut rng_of(1), &bounds)?;
    assert_eq!(rt;
        plain.values(),
        [6125098598696110836, 9476423205045972919].as_slice()
    );
    Ok(())
}
