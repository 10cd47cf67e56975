//! Worked texts.
use crate::{
    ClassLine, FileRefusal, PairList, canonical_bytes, map_bytes, put_map, put_map2, read_map,
    read_map_file, read_sample_file,
};
use pm_canon::same;
use pm_lists::{NumList, put_list};
use pm_map::{MapRefusal, RootedMap};
use std::alloc::Global;
use std::test::Fail;

#[test]
fn one_vertex(rt: HostRuntime) -> Result<(), Fail> {
    let sigma = Vec::from_slice(rt.alloc(), &[2, 0, 3, 1])?;
    let answer = RootedMap::from_parts(rt.alloc(), sigma, 0);
    assert!(rt; answer.is_ok());
    let Ok(map) = answer else { return Ok(()) };
    let mut text = Vec::from_slice(rt.alloc(), b"# ")?;
    put_map(rt.alloc(), &map, &mut text)?;
    assert_eq!(rt; text.as_slice(), b"# map 2 0\nv 0 2 3 1\nend\n".as_slice());
    Ok(())
}

#[test]
fn vertices_as_they_are_met(rt: HostRuntime) -> Result<(), Fail> {
    let sigma = Vec::from_slice(rt.alloc(), &[3, 1, 2, 0])?;
    let answer = RootedMap::from_parts(rt.alloc(), sigma, 3);
    assert!(rt; answer.is_ok());
    let Ok(map) = answer else { return Ok(()) };
    let mut text = Vec::new(rt.alloc());
    put_map(rt.alloc(), &map, &mut text)?;
    assert_eq!(rt;
        text.as_slice(),
        b"map 2 3\nv 3 0\nv 2\nv 1\nend\n".as_slice()
    );
    let alone = map_bytes(rt.alloc(), &map)?;
    assert_eq!(rt; alone.as_slice(), text.as_slice());
    let canonical = canonical_bytes(rt.alloc(), &map)?;
    assert_eq!(rt;
        canonical.as_slice(),
        b"map 2 0\nv 0 2\nv 1\nv 3\nend\n".as_slice()
    );
    Ok(())
}

#[test]
fn no_dart(rt: HostRuntime) -> Result<(), Fail> {
    let answer = RootedMap::from_parts(rt.alloc(), Vec::new(rt.alloc()), 0);
    assert!(rt; answer.is_ok());
    let Ok(map) = answer else { return Ok(()) };
    let mut text = Vec::new(rt.alloc());
    put_map(rt.alloc(), &map, &mut text)?;
    assert_eq!(rt; text.as_slice(), b"map 0 0\nend\n".as_slice());
    Ok(())
}

const RENUMBERED: &[u8] = b"map 4 7\nv 7 0 2 6\nv 1 3 5 4\nend\nresidue 0 0 1 0\n";

#[test]
fn a_text_is_read(rt: HostRuntime) -> Result<(), Fail> {
    let answer = read_map(rt.alloc(), RENUMBERED, 4);
    assert!(rt; answer.is_ok());
    let Ok((map, after)) = answer else {
        return Ok(())
    };
    assert_eq!(rt; map.root(), 7);
    assert_eq!(rt; map.sigma(), [2, 3, 6, 5, 1, 4, 7, 0].as_slice());
    assert_eq!(rt; after, 32);
    Ok(())
}

#[test]
fn a_file_is_read(rt: HostRuntime) -> Result<(), Fail> {
    let answer = read_map_file(rt.alloc(), RENUMBERED, 4);
    assert!(rt; answer.is_ok());
    let Ok((map, residue)) = answer else {
        return Ok(())
    };
    assert_eq!(rt; map.root(), 7);
    assert_eq!(rt; map.sigma(), [2, 3, 6, 5, 1, 4, 7, 0].as_slice());
    let residue = residue.ok_or("a residue line")?;
    assert_eq!(rt; residue.values(), [0, 0, 1, 0].as_slice());
    Ok(())
}

#[test]
fn a_sample_file_is_read(rt: HostRuntime) -> Result<(), Fail> {
    let answer = read_sample_file(rt.alloc(), RENUMBERED, 4);
    assert!(rt; answer.is_ok());
    let Ok((map, residue)) = answer else {
        return Ok(())
    };
    assert_eq!(rt; map.root(), 7);
    assert_eq!(rt; map.sigma(), [2, 3, 6, 5, 1, 4, 7, 0].as_slice());
    assert_eq!(rt; residue.values(), [0, 0, 1, 0].as_slice());
    Ok(())
}

#[test]
fn a_file_without_a_residue_line(rt: HostRuntime) -> Result<(), Fail> {
    let answer = read_map_file(rt.alloc(), b"map 0 0\nend\n", 0);
    assert!(rt; answer.is_ok());
    let Ok((map, residue)) = answer else {
        return Ok(())
    };
    assert_eq!(rt; map.edges(), 0);
    assert_eq!(rt; map.root(), 0);
    assert!(rt; residue.is_none());
    Ok(())
}

#[test]
fn numbers_of_64_bits_in_a_residue_line(rt: HostRuntime) -> Result<(), Fail> {
    let bytes = b"map 1 0\nv 0 1\nend\nresidue 0 18446744073709551615\n";
    let answer = read_map_file(rt.alloc(), bytes, 1);
    assert!(rt; answer.is_ok());
    let Ok((map, residue)) = answer else {
        return Ok(())
    };
    assert_eq!(rt; map.edges(), 1);
    let residue = residue.ok_or("a residue line")?;
    assert_eq!(rt; residue.values(), [0, 18446744073709551615].as_slice());
    Ok(())
}

#[test]
fn what_is_printed_is_read_again(rt: HostRuntime) -> Result<(), Fail> {
    let sigma = Vec::from_slice(rt.alloc(), &[2, 0, 3, 1])?;
    let answer = RootedMap::from_parts(rt.alloc(), sigma, 2);
    assert!(rt; answer.is_ok());
    let Ok(map) = answer else { return Ok(()) };
    let residue = NumList::of(Vec::from_slice(rt.alloc(), &[5, 0])?);
    let mut text = Vec::new(rt.alloc());
    put_map(rt.alloc(), &map, &mut text)?;
    put_list(rt.alloc(), b"residue", &residue, &mut text)?;
    if text.len() > 1000 {
        return Err("a short text".into());
    }
    let again = read_map_file(rt.alloc(), &text, 2);
    assert!(rt; again.is_ok());
    let Ok((read, numbers)) = again else {
        return Ok(())
    };
    assert_eq!(rt; read.root(), 2);
    assert_eq!(rt; read.sigma(), [2, 0, 3, 1].as_slice());
    let numbers = numbers.ok_or("a residue line")?;
    assert_eq!(rt; numbers.values(), [5, 0].as_slice());
    let sample = read_sample_file(rt.alloc(), &text, 2);
    assert!(rt; sample.is_ok());
    let Ok((read, numbers)) = sample else {
        return Ok(())
    };
    assert_eq!(rt; read.sigma(), [2, 0, 3, 1].as_slice());
    assert_eq!(rt; numbers.values(), [5, 0].as_slice());
    Ok(())
}

// Why the bytes are refused as a map file, where they are. Memory stands for more bytes or edges than are tried here.
fn refusal_of_file(alloc: Global, bytes: &[u8], limit: u32) -> Option<FileRefusal> {
    if bytes.len() > 1000 || limit > 1000 {
        return Some(FileRefusal::Memory);
    }
    match read_map_file(alloc, bytes, limit) {
        Ok(_) => None,
        Err(refusal) => Some(refusal),
    }
}

// The same of a sample file.
fn refusal_of_sample(alloc: Global, bytes: &[u8], limit: u32) -> Option<FileRefusal> {
    if bytes.len() > 1000 || limit > 1000 {
        return Some(FileRefusal::Memory);
    }
    match read_sample_file(alloc, bytes, limit) {
        Ok(_) => None,
        Err(refusal) => Some(refusal),
    }
}

// The same of a map text at the prefix of the bytes.
fn refusal_of_text(alloc: Global, bytes: &[u8], limit: u32) -> Option<FileRefusal> {
    if bytes.len() > 1000 || limit > 1000 {
        return Some(FileRefusal::Memory);
    }
    match read_map(alloc, bytes, limit) {
        Ok(_) => None,
        Err(refusal) => Some(refusal),
    }
}

#[test]
fn every_prefix_of_a_file(rt: HostRuntime) {
    // 0 where the prefix is a file
    let lines: [u32; 49] = [
        1, 1, 1, 1, 1, 1, 1, 1, 2, 2, 2, 2, 2, 2, 2, 2, 2, 2, 3, 3, 3, 3, 3, 3, 3, 3, 3, 3, 4, 4,
        4, 4, 0, 5, 5, 5, 5, 5, 5, 5, 5, 5, 5, 5, 5, 5, 5, 5, 0,
    ];
    for (count, line) in lines.iter().enumerate() {
        let refusal = if *line == 0 {
            None
        } else {
            Some(FileRefusal::Text { line: *line })
        };
        assert_eq!(rt;
            refusal_of_file(rt.alloc(), &RENUMBERED[..count], 4),
            refusal
        );
        // what ends behind the line `end` misses its residue line
        let refusal = if count == 32 {
            Some(FileRefusal::Text { line: 5 })
        } else {
            refusal
        };
        assert_eq!(rt;
            refusal_of_sample(rt.alloc(), &RENUMBERED[..count], 4),
            refusal
        );
    }
}

#[test]
fn texts_with_a_broken_line(rt: HostRuntime) {
    let rows: [(&[u8], u32); 15] = [
        (b"", 1),
        (b"map 2 0\nv 0 1 2 3\n", 3),
        (b"map 02 0\nend\n", 1),
        (b"map 0 1\nend\n", 1),
        (b"map 1 2\nv 0\nv 1\nend\n", 1),
        (b"map 18446744073709551616 0\nend\n", 1),
        (b"map 18446744073709551615 0\nend\n", 2),
        (b"map 9223372036854775808 0\nv 4294967296\nend\n", 3),
        (b"map 2 0\nv 0 1 2 4\nend\n", 2),
        (b"map 2 0\nv 0 1 2\nend\n", 3),
        (b"map 2 0\nv 0 1 2 3\nv 0\nend\n", 3),
        (b"map 2 0\nv\nend\n", 2),
        (b"map 2 0\nv 0 1 2 3 \nend\n", 2),
        (b"map 1 0\nv 0\nv  1\nend\n", 3),
        (b"map 2 0\nv 0 1 2 3\nend", 3),
    ];
    for (bytes, line) in rows {
        let refusal = Some(FileRefusal::Text { line });
        assert_eq!(rt; refusal_of_text(rt.alloc(), bytes, 1000), refusal);
        assert_eq!(rt; refusal_of_file(rt.alloc(), bytes, 1000), refusal);
    }
}

#[test]
fn files_with_a_broken_line_after_the_text(rt: HostRuntime) {
    let rows: [(&[u8], u32); 5] = [
        (b"map 2 0\nv 0 1 2 3\nend\nv 0\n", 4),
        (b"map 2 0\nv 0 1 2 2\nend\nx\n", 4),
        (b"map 1 0\nv 0 1\nend\nresidue  2\n", 4),
        (b"map 1 0\nv 0\nv 1\nend\nresidue 9", 5),
        (b"map 1 0\nv 0\nv 1\nend\nresidue 2 0\nresidue 2 0\n", 6),
    ];
    for (bytes, line) in rows {
        let refusal = Some(FileRefusal::Text { line });
        assert_eq!(rt; refusal_of_file(rt.alloc(), bytes, 1000), refusal);
        assert_eq!(rt; refusal_of_sample(rt.alloc(), bytes, 1000), refusal);
    }
}

#[test]
fn sample_files_with_a_broken_line(rt: HostRuntime) {
    let rows: [(&[u8], u32); 6] = [
        (b"map 0 0\nend\n", 3),
        (b"map 2 0\nv 0 1 2 3\nend\n", 4),
        (b"map 2 0\nv 0 1 2 3\nend\nresidue  0\n", 4),
        (b"map 2 0\nv 0 1 2 3\nend\nresidue 0\nresidue 0\n", 5),
        (b"map 2 0\nv 0 1 2 3\n", 3),
        (b"map 2 0\nv 0 2 1 3\nend\n", 4),
    ];
    for (bytes, line) in rows {
        let refusal = Some(FileRefusal::Text { line });
        assert_eq!(rt; refusal_of_sample(rt.alloc(), bytes, 1000), refusal);
    }
}

#[test]
fn sample_files_of_no_map(rt: HostRuntime) {
    let rows: [(&[u8], u32, MapRefusal); 3] = [
        (
            b"map 2 0\nv 0 2 1 3\nend\nresidue 9 9 9\n",
            2,
            MapRefusal::Genus { euler: 0 },
        ),
        (
            b"map 2 0\nv 0 1 2 3\nend\nresidue\n",
            1,
            MapRefusal::TooMany { edges: 2 },
        ),
        (
            b"map 2 0\nv 0 1 2 2\nend\nresidue 0\n",
            2,
            MapRefusal::NotPermutation { dart: 3 },
        ),
    ];
    for (bytes, limit, rule) in rows {
        let refusal = Some(FileRefusal::Map(rule));
        assert_eq!(rt; refusal_of_sample(rt.alloc(), bytes, limit), refusal);
    }
}

#[test]
fn texts_of_no_map(rt: HostRuntime) {
    let rows: [(&[u8], u32, MapRefusal); 7] = [
        (
            b"map 2 0\nv 0 1 2 2\nend\n",
            2,
            MapRefusal::NotPermutation { dart: 3 },
        ),
        (
            b"map 3 0\nv 0 0 5 1\nv 3 3\nend\n",
            3,
            MapRefusal::NotPermutation { dart: 2 },
        ),
        (
            b"map 2 0\nv 0 1 2 2\nend\n",
            1,
            MapRefusal::TooMany { edges: 2 },
        ),
        (
            b"map 1 0\nv 0 1\nend\n",
            0,
            MapRefusal::TooMany { edges: 1 },
        ),
        (
            b"map 2 0\nv 0 2 1 3\nend\n",
            2,
            MapRefusal::Genus { euler: 0 },
        ),
        (
            b"map 4 0\nv 0 1 2 3\nv 4 6 5 7\nend\n",
            4,
            MapRefusal::NotConnected { dart: 4 },
        ),
        (
            b"map 2 2\nv 0 1\nv 2 3\nend\n",
            2,
            MapRefusal::NotConnected { dart: 0 },
        ),
    ];
    for (bytes, limit, rule) in rows {
        let refusal = Some(FileRefusal::Map(rule));
        assert_eq!(rt; refusal_of_text(rt.alloc(), bytes, limit), refusal);
        assert_eq!(rt; refusal_of_file(rt.alloc(), bytes, limit), refusal);
    }
}

// Two texts of one map, in two numberings.
#[test]
fn texts_of_the_same_map(rt: HostRuntime) -> Result<(), Fail> {
    let answer = read_map(rt.alloc(), RENUMBERED, 4);
    assert!(rt; answer.is_ok());
    let Ok((one, after)) = answer else {
        return Ok(())
    };
    assert_eq!(rt; after, 32);
    let canonical = b"map 4 0\nv 0 2 4 1\nv 3 5 6 7\nend\n";
    let answer = read_map(rt.alloc(), canonical, 4);
    assert!(rt; answer.is_ok());
    let Ok((other, after)) = answer else {
        return Ok(())
    };
    assert_eq!(rt; after, 32);
    assert!(rt; same(rt.alloc(), &one, &other)?);
    Ok(())
}

// The map of one edge with two ends.
#[test]
fn text_with_twins(rt: HostRuntime) -> Result<(), Fail> {
    let sigma = Vec::from_slice(rt.alloc(), &[0, 1])?;
    let answer = RootedMap::from_parts(rt.alloc(), sigma, 0);
    assert!(rt; answer.is_ok());
    let Ok(map) = answer else { return Ok(()) };
    let mut text = Vec::from_slice(rt.alloc(), b"# ")?;
    put_map2(rt.alloc(), &map, &ClassLine::General(1), &mut text)?;
    assert_eq!(rt;
        text.as_slice(),
        b"# planarmap 2\nclass general 1\nmap 1 0\nv 0\nv 1\nt 0 1\nend\n".as_slice()
    );
    Ok(())
}

#[test]
fn text_with_twins_of_no_dart(rt: HostRuntime) -> Result<(), Fail> {
    let answer = RootedMap::from_parts(rt.alloc(), Vec::new(rt.alloc()), 0);
    assert!(rt; answer.is_ok());
    let Ok(map) = answer else { return Ok(()) };
    let mut text = Vec::new(rt.alloc());
    put_map2(rt.alloc(), &map, &ClassLine::General(0), &mut text)?;
    assert_eq!(rt;
        text.as_slice(),
        b"planarmap 2\nclass general 0\nmap 0 0\nend\n".as_slice()
    );
    Ok(())
}

#[test]
fn class_line_of_pairs(rt: HostRuntime) -> Result<(), Fail> {
    let sigma = Vec::from_slice(rt.alloc(), &[0, 1])?;
    let answer = RootedMap::from_parts(rt.alloc(), sigma, 0);
    assert!(rt; answer.is_ok());
    let Ok(map) = answer else { return Ok(()) };
    let pairs = PairList::of(vec![in rt.alloc(); (2u64, 1u64), (4, 300)]?);
    let mut text = Vec::new(rt.alloc());
    put_map2(rt.alloc(), &map, &ClassLine::Bipartite(pairs), &mut text)?;
    assert!(rt; text.starts_with(b"planarmap 2\nclass bipartite 2:1,4:300\nmap 1 0\n"));
    Ok(())
}
