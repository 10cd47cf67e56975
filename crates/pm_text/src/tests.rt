//! Worked values.
use crate::{LeadingNumber, Lines, Words, leading_number, number, put_number};
use std::test::Fail;

#[test]
fn numbers(rt: HostRuntime) {
    let rows: [(&[u8], Option<u64>); 13] = [
        (b"0", Some(0)),
        (b"7", Some(7)),
        (b"10", Some(10)),
        (b"18446744073709551615", Some(18446744073709551615)),
        (b"18446744073709551616", None),
        (b"99999999999999999999", None),
        (b"100000000000000000000", None),
        (b"", None),
        (b"00", None),
        (b"02", None),
        (b"+2", None),
        (b"2 ", None),
        (b"2a", None),
    ];
    for (word, want) in rows {
        assert_eq!(rt; number(word), want);
    }
}

#[test]
fn numbers_at_the_prefix(rt: HostRuntime) {
    let rows: [(&[u8], Option<(u64, usize)>); 10] = [
        (b"0", Some((0, 1))),
        (b"0 7", Some((0, 1))),
        (b"70\n", Some((70, 2))),
        (b"18446744073709551615v", Some((18446744073709551615, 20))),
        (b"18446744073709551616v", None),
        (b"99999999999999999999", None),
        (b"", None),
        (b" 7", None),
        (b"02", None),
        (b"00", None),
    ];
    for (bytes, want) in rows {
        let want = want.map(|(value, length)| LeadingNumber { value, length });
        assert_eq!(rt; leading_number(bytes), want);
    }
}

#[test]
fn spellings(rt: HostRuntime) -> Result<(), Fail> {
    let mut text = Vec::from_slice(rt.alloc(), b"map")?;
    for value in [0, 10, 18446744073709551615] {
        text.push(b' ')?;
        put_number(rt.alloc(), value, &mut text)?;
    }
    assert_eq!(rt;
        text.as_slice(),
        b"map 0 10 18446744073709551615".as_slice()
    );
    Ok(())
}

#[test]
fn lines_of_a_text(rt: HostRuntime) -> Result<(), Fail> {
    let mut lines = Lines::new(b"ab\n\ncd");
    for (text, ended, after) in [("ab", true, 3), ("", true, 4), ("cd", false, 6)] {
        let line = lines.next().ok_or("a line")?;
        assert_eq!(rt; line.text, text.as_bytes());
        assert_eq!(rt; line.ended, ended);
        assert_eq!(rt; line.after, after);
    }
    assert!(rt; lines.next().is_none());
    assert!(rt; lines.next().is_none());
    assert!(rt; Lines::new(b"").next().is_none());
    let mut lines = Lines::new(b"ab\ncd\n");
    let count = lines.rest().len().min(3);
    lines.skip(count);
    assert_eq!(rt; lines.rest(), b"cd\n".as_slice());
    assert_eq!(rt; lines.next().ok_or("a line")?.after, 6);
    Ok(())
}

#[test]
fn words_of_a_line(rt: HostRuntime) -> Result<(), Fail> {
    let mut words = Words::new(b"a  b ");
    for want in ["a", "", "b", ""] {
        assert_eq!(rt; words.next().ok_or("a word")?, want.as_bytes());
    }
    assert!(rt; words.next().is_none());
    assert!(rt; words.next().is_none());
    assert!(rt; Words::new(b"").next().is_none());
    Ok(())
}
