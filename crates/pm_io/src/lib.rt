//! The outside: where bytes come from and go to, and the reading of a whole input.
//!
//! A caller is generic over [`Source`] and [`Sink`]. Its contract can name the bytes that a source has left (`left`)
//! and those that a sink holds (`holds`), each told or not, and the count of faults of both (`faults`). A read or a
//! write that fails has a cause: the count rose in that call. So a caller that blames the outside can show it.
//!
//! ```text
//! let bytes = read_all(alloc, source, MAX_BYTES)?;   // all that was left, or why not
//! sink.write(bytes.as_slice())?;                     // Ok: the whole piece was added; else a prefix of it
//! sink.flush()?;
//! ```
//!
//! [`MemSource`] and [`MemSink`] tell their bytes, and fail at chosen calls: they are for tests. [`StdSource`],
//! [`StdSinkOut`] and [`StdSinkErr`] are the streams of the process; they tell no bytes, and are trusted to count
//! their errors alone.
#![tactic(auto)]

ghost use Rattle.std.specs.Prelude.{◌≡◌, ℕ, ◌≤◌, ◌<◌, List, Option, length, take, IfOk, IfSome, OnOk, OnErr};
ghost use Rattle.pm_io.specs.Bytes.{added, without, TakesPrefix};
ghost use Rattle.pm_io.specs.Faults.{FaultsRose};

mod calls;
mod memory;
mod reading;
mod standard;
#[cfg(test)]
mod tests;

pub use memory::{MemSink, MemSource};
pub use reading::read_all;
pub use standard::{ReaderSource, StdSinkErr, StdSinkOut, StdSource, WriterSink};
use std::alloc::AllocError;

/// The most bytes that an input may have, 256 MiB.
pub const MAX_BYTES: usize = 268_435_456;

// The number is part of the program's manual: another one is refused here.
const _: () = prove!(MAX_BYTES == 268_435_456);

/// A read or a write failed. The cause lies outside: the stream's count of faults rose in that call.
#[derive(Clone, Copy, Debug, PartialEq, Eq)]
pub struct Failed;

/// Why a whole input wasn't read.
#[derive(Clone, Copy, Debug, PartialEq, Eq)]
pub enum ReadRefusal {
    /// Memory is wanting.
    Memory,
    /// A read failed.
    Read,
    /// The source has more bytes than the limit.
    TooLong,
}

impl From<AllocError> for ReadRefusal {
    ghost use Rattle.pm_io.specs.declared.ReadRefusal.TheVariants.{Memory};

    ghost from_gives = { λ _ refusal. refusal ≡ Memory };

    fn from(_: AllocError) -> ReadRefusal {
        ReadRefusal::Memory
    }
}

/// Where bytes come from.
pub trait Source {
    // The bytes not yet read, where the source tells them.
    ghost left: { Self → Option (List ℕ) };

    // How often the source failed.
    ghost faults: { Self → ℕ };

    /// Reads some bytes to the prefix of `buf`, which isn't empty, and says how many; 0 is the end of the input.
    /// A read that fails takes no byte.
    fn read(&mut self, buf: &mut [u8]) -> Result<usize, Failed>
        requires { 0 < length buf.old }

        ensures count { IfOk result (λ k. k ≤ length buf.new) }
        ensures bytes { IfOk result (λ k. IfSome (left self.old) (λ l. TakesPrefix k l buf.new)) }
        ensures taken { IfOk result (λ k. left self.new ≡ without k (left self.old)) }
        ensures stays { OnErr result (left self.new ≡ left self.old) }

        ensures calm { OnOk result (faults self.new ≡ faults self.old) }
        ensures cause { OnErr result (FaultsRose (faults self.old) (faults self.new)) }
        ensures later { faults self.old ≤ faults self.new };

    // The count of faults has 64 bits.
    ghost bounded: { (source : Self) → faults source ≤ 18446744073709551615 };
}

/// Where bytes go.
pub trait Sink {
    // The bytes taken so far, where the sink tells them.
    ghost holds: { Self → Option (List ℕ) };

    // How often the sink failed.
    ghost faults: { Self → ℕ };

    /// Adds the piece. A write that fails has added a prefix of it, which may be empty or whole.
    fn write(&mut self, piece: &[u8]) -> Result<(), Failed>
        ensures whole { OnOk result (holds self.new ≡ added (holds self.old) piece.now) }
        ensures prefix { OnErr result ((n : ℕ) × (holds self.new ≡ added (holds self.old) (take n piece.now))) }

        ensures calm { OnOk result (faults self.new ≡ faults self.old) }
        ensures cause { OnErr result (FaultsRose (faults self.old) (faults self.new)) }
        ensures later { faults self.old ≤ faults self.new };

    /// Hands on what was written. It adds and takes nothing.
    fn flush(&mut self) -> Result<(), Failed>
        ensures stays { holds self.new ≡ holds self.old }

        ensures calm { OnOk result (faults self.new ≡ faults self.old) }
        ensures cause { OnErr result (FaultsRose (faults self.old) (faults self.new)) }
        ensures later { faults self.old ≤ faults self.new };

    // The count of faults has 64 bits.
    ghost bounded: { (sink : Self) → faults sink ≤ 18446744073709551615 };
}
