//! Stem trees as bits.
use super::*;
use std::alloc::{AllocError, Global};
use std::test::Fail;

/// The bits as digits.
fn digits(alloc: Global, bits: &[bool]) -> Result<Vec<u8>, AllocError> {
    let mut digits = Vec::new(alloc);
    for one in bits {
        digits.push(if *one { b'1' } else { b'0' })?;
    }
    Ok(digits)
}

// All trees with up to three nodes: of the lists of two bits one is that of a tree, of those of six two, and of those of ten
// nine.
#[test]
fn bits_of_trees(rt: HostRuntime) -> Result<(), Fail> {
    for (word, bits) in [
        (b"s".as_slice(), b"00".as_slice()),
        (b"s(ss)", b"010000"),
        (b"(ss)s", b"100000"),
        (b"s(ss)(ss)", b"0100010000"),
        (b"s(ss(ss))", b"0100100000"),
        (b"s(s(ss)s)", b"0101000000"),
        (b"s((ss)ss)", b"0110000000"),
        (b"(ss)s(ss)", b"1000010000"),
        (b"(ss)(ss)s", b"1000100000"),
        (b"(ss(ss))s", b"1001000000"),
        (b"(s(ss)s)s", b"1010000000"),
        (b"((ss)ss)s", b"1100000000"),
        (
            b"(ss(ss(ss(ss)(ss))((ss)ss(ss))((ss(ss))ss)))s",
            b"1001001001000100001100000100001100100000000000",
        ),
    ] {
        assert!(rt; word.len() < 100);
        let tree = read_tri_tree(rt.alloc(), word)?;
        let bits_of_tree = bits_of_tri_tree(rt.alloc(), &tree)?;
        assert_eq!(rt; digits(rt.alloc(), &bits_of_tree)?.as_slice(), bits);
        assert_eq!(rt;
            tri_tree_of_bits(rt.alloc(), &bits_of_tree)?.letters(),
            word
        );
    }
    Ok(())
}
