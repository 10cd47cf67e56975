//! The standard streams of the process, over any reader and any writer. They tell no bytes; what they are trusted with
//! is to count each error that they answer.
ghost use Rattle.std.specs.Prelude.{◌≡◌, ◌<◌, ◌≤◌, ℕ, None, IfOk, OnOk, OnErr, length, take};
ghost use Rattle.std.specs.Bool.{OnTrue};
ghost use Rattle.std.specs.Io.KnownBytes.{Appends, Keeps, ReadConsumes};
ghost use Rattle.pm_io.specs.Faults.{FaultsRose, capped};

use crate::{Failed, Sink, Source};
use std::io::{Read, Stderr, Stdin, Stdout, Write};

/// Standard input, as `StdSource::new(rt.stdin())`.
pub type StdSource = ReaderSource<Stdin>;

/// Standard output, as `StdSinkOut::new(rt.stdout())`.
pub type StdSinkOut = WriterSink<Stdout>;

/// Standard error, as `StdSinkErr::new(rt.stderr())`.
pub type StdSinkErr = WriterSink<Stderr>;

/// A source over a reader. Each error of the reader is answered and counted, an interrupted call among them.
#[derive(Drop)]
pub struct ReaderSource<R> {
    reader: R,
    errors: u64,
}

impl<R: Read> ReaderSource<R> {
    ghost use Rattle.pm_io.specs.Streams.{read_errors, reader_of};

    /// A source with no error so far.
    pub fn new(reader: R) -> Self
        ensures reader { reader_of result ≡ reader }
        ensures errors { read_errors result ≡ 0 }
    {
        ReaderSource { reader, errors: 0 }
    }
}

impl<R: Read> Source for ReaderSource<R> {
    ghost use Rattle.pm_io.specs.Faults.{capped-le};
    ghost use Rattle.pm_io.specs.Streams.{read_errors, reader_of};

    ghost left = { λ _. None };

    ghost faults = { λ s. capped (read_errors s) };

    ghost bounded = { λ s. capped-le (read_errors s) };

    fn read(&mut self, buf: &mut [u8]) -> Result<usize, Failed>
        requires { 0 < length buf.old }

        // as every source that tells no bytes
        ensures count { IfOk result (λ k. k ≤ length buf.new) }
        ensures calm { OnOk result (capped (read_errors self.new) ≡ capped (read_errors self.old)) }
        ensures cause { OnErr result (FaultsRose (capped (read_errors self.old)) (capped (read_errors self.new))) }
        ensures later { capped (read_errors self.old) ≤ capped (read_errors self.new) }

        // Where the reader knows its bytes, they are what is read.
        ensures consumed { ReadConsumes (R.remaining (reader_of self.old)) (R.remaining (reader_of self.new)) result buf.new }
    {
        let Ok(count) = self.reader.read(buf) else {
            self.errors = self.errors.saturating_add(1);
            return Err(Failed);
        };
        Ok(count)
    }
}

/// A sink over a writer. Each error of the writer is answered and counted, an interrupted call among them, and a write
/// that takes nothing of a piece that isn't empty.
#[derive(Drop)]
pub struct WriterSink<W> {
    writer: W,
    errors: u64,
}

/// Writes the whole piece in as many calls as it takes, and says whether it was taken.
fn write_whole<W: Write>(writer: &mut W, piece: &[u8]) -> bool
    ensures whole { OnTrue result (Appends (W.contents writer.old) (W.contents writer.new) piece.now) }
    ensures prefix { (n : ℕ) × Appends (W.contents writer.old) (W.contents writer.new) (take n piece.now) }
{
    let mut rest = piece;
    'rest: while !rest.is_empty() {
        let Ok(count) = writer.write(rest) else {
            return false;
        };
        if count == 0 {
            return false;
        }
        rest = &rest[count..];
    }
    true
}

impl<W: Write> WriterSink<W> {
    ghost use Rattle.pm_io.specs.Streams.{write_errors, writer_of};

    /// A sink with no error so far.
    pub fn new(writer: W) -> Self
        ensures writer { writer_of result ≡ writer }
        ensures errors { write_errors result ≡ 0 }
    {
        WriterSink { writer, errors: 0 }
    }
}

impl<W: Write> Sink for WriterSink<W> {
    ghost use Rattle.pm_io.specs.Faults.{capped-le};
    ghost use Rattle.pm_io.specs.Streams.{write_errors, writer_of};

    ghost holds = { λ _. None };

    ghost faults = { λ s. capped (write_errors s) };

    ghost bounded = { λ s. capped-le (write_errors s) };

    fn write(&mut self, piece: &[u8]) -> Result<(), Failed>
        // as every sink that tells no bytes
        ensures calm { OnOk result (capped (write_errors self.new) ≡ capped (write_errors self.old)) }
        ensures cause { OnErr result (FaultsRose (capped (write_errors self.old)) (capped (write_errors self.new))) }
        ensures later { capped (write_errors self.old) ≤ capped (write_errors self.new) }

        // Where the writer knows its bytes, the piece is added, or a prefix of it.
        ensures wrote { OnOk result (Appends (W.contents (writer_of self.old)) (W.contents (writer_of self.new)) piece.now) }
        ensures wrote_prefix { OnErr result ((n : ℕ) × Appends (W.contents (writer_of self.old)) (W.contents (writer_of self.new)) (take n piece.now)) }
    {
        if !write_whole(&mut self.writer, piece) {
            self.errors = self.errors.saturating_add(1);
            return Err(Failed);
        }
        Ok(())
    }

    fn flush(&mut self) -> Result<(), Failed>
        // as every sink that tells no bytes
        ensures calm { OnOk result (capped (write_errors self.new) ≡ capped (write_errors self.old)) }
        ensures cause { OnErr result (FaultsRose (capped (write_errors self.old)) (capped (write_errors self.new))) }
        ensures later { capped (write_errors self.old) ≤ capped (write_errors self.new) }

        // The bytes that the writer knows stay.
        ensures kept { Keeps (W.contents (writer_of self.old)) (W.contents (writer_of self.new)) }
    {
        if self.writer.flush().is_err() {
            self.errors = self.errors.saturating_add(1);
            return Err(Failed);
        }
        Ok(())
    }
}
