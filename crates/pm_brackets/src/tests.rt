//! Worked words of brackets and `s` on a plant that is an `s`.
ghost use Rattle.std.specs.Prelude.{◌<◌, ◌^◌, length};

use super::*;
use std::alloc::{AllocError, Global};
use std::test::Fail;

/// The word planted at its `s` of this number, which is 0 for the plant; none where the text isn't in order, or has no such
/// letter.
fn planted(alloc: Global, word: &[u8], number: u32) -> Result<Option<Vec<u8>>, AllocError>
    requires { length word.now < 2 ^ 30 }
{
    if first_fault(alloc, word, b"s")?.is_some() || number > occurrences(word, b's') {
        return Ok(None);
    }
    let start = nth_letter(word, b's', number);
    Ok(Some(turned(alloc, b's', word, start)?))
}

#[test]
fn finds_faults(rt: HostRuntime) -> Result<(), Fail> {
    for (word, place) in [
        (b"s(s)".as_slice(), None),
        (b"", None),
        (b"s(", Some(2)),
        (b"sx)(", Some(2)),
        (b"s)x", Some(2)),
        (b"()())s(", Some(5)),
        (b"(s(s)", Some(1)),
    ] {
        assert!(rt; word.len() < 100);
        assert_eq!(rt; first_fault(rt.alloc(), word, b"s")?, place);
    }
    // No other letter is listed.
    assert_eq!(rt; first_fault(rt.alloc(), b"()s(", b"")?, Some(3));
    Ok(())
}

#[test]
fn plants_anew(rt: HostRuntime) -> Result<(), Fail> {
    for (word, number, letters) in [
        (b"(s)(ss)s".as_slice(), 0, Some(b"(s)(ss)s".as_slice())),
        (b"(s)(ss)s", 1, Some(b"((ss)ss)")),
        (b"(s)(ss)s", 3, Some(b"(ss(s))s")),
        (b"(s)(ss)s", 5, None),
        (b"(s", 0, None),
    ] {
        assert!(rt; word.len() < 100);
        let found = planted(rt.alloc(), word, number)?;
        assert_eq!(rt; found.as_deref(), letters);
    }
    Ok(())
}

#[test]
fn counts_letters(rt: HostRuntime) {
    let word = b"(s)(ss)s";
    for (number, place) in [(0, 0), (1, 2), (2, 5), (3, 6), (4, 8)] {
        assert_eq!(rt; letters_before(word, b's', place), number);
    }
    assert_eq!(rt;
        (letter_at(b's', word, 0), letter_at(b's', word, 4)),
        (b's', b'(')
    );
    assert_eq!(rt;
        (noted(Some(3), 2, false), noted(None, 2, true)),
        (Some(2), None)
    );
}
