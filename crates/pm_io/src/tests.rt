use super::*;
use std::alloc::Global;
use std::io;
use std::io::{ErrorKind, Read, Write};
use std::test::Fail;

fn list(alloc: Global, numbers: &[u32]) -> Result<Vec<u32>, AllocError> {
    Vec::from_slice(alloc, numbers)
}

// nine bytes
fn tree(alloc: Global) -> Result<Vec<u8>, AllocError> {
    Vec::from_slice(alloc, b"tree lbl\n")
}

#[test]
fn reads_in_pieces(rt: HostRuntime) -> Result<(), Fail> {
    let alloc = rt.alloc();
    for (piece, fail, limit, want) in [
        (4, 9, MAX_BYTES, None),
        (4, 3, MAX_BYTES, Some(ReadRefusal::Read)),
        (1, 10, 9, Some(ReadRefusal::Read)),
        (4, 9, 9, None),
        (4, 9, 8, Some(ReadRefusal::TooLong)),
        (100, 1, 8, Some(ReadRefusal::Read)),
        (100, 9, 0, Some(ReadRefusal::TooLong)),
    ] {
        let mut source = MemSource::new(tree(alloc)?, piece, list(alloc, &[fail])?);
        match (read_all(alloc, &mut source, limit), want) {
            (Ok(bytes), None) => assert_eq!(rt; bytes.as_slice(), b"tree lbl\n".as_slice()),
            (Err(refusal), Some(wanted)) => assert_eq!(rt; refusal, wanted),
            _ => panic!(rt; "at pieces of {piece}, fail {fail}, limit {limit}"),
        }
    }
    Ok(())
}

#[test]
fn reads_past_a_chunk(rt: HostRuntime) -> Result<(), Fail> {
    let alloc = rt.alloc();
    let bytes = vec![in alloc; 7u8; 200_000]?;
    let mut source = MemSource::new(bytes, 100_000, Vec::new(alloc));
    let read = read_all(alloc, &mut source, 200_000)?;
    assert_eq!(rt; read.len(), 200_000);
    let again = read_all(alloc, &mut source, 0)?;
    assert!(rt; again.is_empty());
    Ok(())
}

#[test]
fn sinks_keep_parts(rt: HostRuntime) -> Result<(), Fail> {
    let alloc = rt.alloc();
    let mut sink = MemSink::new(alloc, 10, 5, list(alloc, &[1, 3])?)?;
    assert!(rt; sink.write(b"tree lbl\n").is_err());
    assert_eq!(rt; sink.bytes(), b"tree ".as_slice());
    assert!(rt; sink.write(b"ab").is_ok());
    assert!(rt; sink.flush().is_err());
    assert!(rt; sink.flush().is_ok());
    assert_eq!(rt; sink.bytes(), b"tree ab".as_slice());
    // three bytes of room
    assert!(rt; sink.write(b"wxyz").is_err());
    assert_eq!(rt; sink.bytes(), b"tree abwxy".as_slice());
    assert!(rt; sink.write(b"").is_ok());
    Ok(())
}

// Takes two bytes at a call, and from the sixth on nothing. Gives one byte, and then fails.
#[derive(Drop)]
struct Narrow {
    taken: usize,
}

impl Write for Narrow {
    fn write(&mut self, buf: &[u8]) -> io::Result<usize> {
        let count = buf.len().min(2);
        if self.taken >= 6 {
            return Ok(0);
        }
        self.taken += count;
        Ok(count)
    }

    fn flush(&mut self) -> io::Result<()> {
        if self.taken >= 6 {
            return Err(io::Error::from(ErrorKind::Interrupted));
        }
        Ok(())
    }
}

impl Read for Narrow {
    fn read(&mut self, buf: &mut [u8]) -> io::Result<usize> {
        if self.taken >= 1 || buf.is_empty() {
            return Err(io::Error::from(ErrorKind::Interrupted));
        }
        buf[0] = 5;
        self.taken = 1;
        Ok(1)
    }
}

#[test]
fn streams_count_errors(rt: HostRuntime) -> Result<(), Fail> {
    let mut sink = WriterSink::new(Narrow { taken: 0 });
    assert!(rt; sink.write(b"abcde").is_ok());
    assert!(rt; sink.flush().is_ok());
    assert!(rt; sink.write(b"").is_ok());
    assert!(rt; sink.write(b"abcde").is_err());
    assert!(rt; sink.flush().is_err());

    let mut source = ReaderSource::new(Narrow { taken: 0 });
    let mut buf = [0u8; 4];
    assert!(rt; source.read(&mut buf).is_ok());
    assert_eq!(rt; buf[0], 5);
    assert!(rt; source.read(&mut buf).is_err());
    Ok(())
}

#[test]
fn standard_streams_write(rt: HostRuntime) -> Result<(), Fail> {
    let mut out = StdSinkOut::new(rt.stdout());
    let mut err = StdSinkErr::new(rt.stderr());
    assert!(rt; out.write(b"out\n").is_ok());
    assert!(rt; out.flush().is_ok());
    assert!(rt; err.write(b"err\n").is_ok());
    let _source = StdSource::new(rt.stdin());
    Ok(())
}
