//! A source and a sink over memory, which fail at chosen calls.
ghost use Rattle.std.specs.Prelude.{◌≡◌, ◌↔◌, ℕ, ◌+◌, ◌-◌, ◌≤◌, ◌<◌, [], ◌++◌, length, take, drop, min, IsErr, IfOk, OnOk, OnErr, Some, vec_len, vec_capacity};
ghost use Rattle.pm_io.specs.Bytes.{TakesPrefix};
ghost use Rattle.pm_io.specs.Faults.{FaultsRose, capped, one_more};
ghost use Rattle.pm_io.specs.Memory.{FailsNext, FailsToWrite, kept};

use crate::calls::Calls;
use crate::{Failed, Sink, Source};
use std::alloc::{AllocError, Global};
use std::marker::Model;

/// A source over bytes in memory. It tells the bytes left.
#[derive(Drop)]
pub struct MemSource {
    bytes: Vec<u8>,
    at: usize,
    piece: u32,
    calls: Calls,
}

impl Model for MemSource {
    ghost use Rattle.std.specs.Prelude.{ℕ, ◌≤◌, drop, length};
    ghost use Rattle.pm_io.specs.Memory.{Supply};

    ghost Value = { Supply };

    ghost view = { λ s. record { left = drop s.at s.bytes.items; piece = s.piece; fail = s.calls.fail.items; calls = s.calls.made; faults = s.calls.faults } };

    ghost invariant = { λ s. (1 ≤ s.piece) × (s.at ≤ length s.bytes.items) };
}

impl MemSource {
    /// A source of these bytes that gives at most `piece` of them at a call. Its calls of `read` are numbered from 1,
    /// and exactly those whose numbers stand in `fail` fail. A call after number 4294967295 has no number.
    pub fn new(bytes: Vec<u8>, piece: u32, fail: Vec<u32>) -> MemSource
        requires { 1 ≤ piece }
        ensures { result ≡ record { left = bytes.items; piece = piece; fail = fail.items; calls = 0; faults = 0 } }
    {
        MemSource {
            bytes,
            at: 0,
            piece,
            calls: Calls::new(fail),
        }
    }
}

/// Copies the prefix of `bytes` to the prefix of `buf`, as much as there is of both and at most `most`.
fn copy_prefix(bytes: &[u8], buf: &mut [u8], most: usize) -> usize
    ensures count { result ≡ min most (min (length buf.old) (length bytes.now)) }
    ensures prefix { take result buf.new ≡ take result bytes.now }
{
    let count = most.min(buf.len()).min(bytes.len());
    buf[..count].copy_from_slice(&bytes[..count]);
    count
}

impl Source for MemSource {
    ghost left = { λ s. Some s.left };

    ghost faults = { λ s. capped s.faults };

    ghost use Rattle.pm_io.specs.Faults.{capped-le};

    ghost bounded = { λ s. capped-le s.faults };

    fn read(&mut self, buf: &mut [u8]) -> Result<usize, Failed>
        requires { 0 < length buf.old }

        // as every source
        ensures count { IfOk result (λ k. k ≤ length buf.new) }
        ensures bytes { IfOk result (λ k. TakesPrefix k self.old.left buf.new) }
        ensures taken { IfOk result (λ k. Some self.new.left ≡ Some (drop k self.old.left)) }
        ensures stays { OnErr result (Some self.new.left ≡ Some self.old.left) }
        ensures calm { OnOk result (capped self.new.faults ≡ capped self.old.faults) }
        ensures cause { OnErr result (FaultsRose (capped self.old.faults) (capped self.new.faults)) }
        ensures later { capped self.old.faults ≤ capped self.new.faults }

        // which calls fail, how much is given, and all that it leaves
        ensures fails { IsErr result ↔ FailsNext self.old.fail self.old.calls }
        ensures given { IfOk result (λ k. k ≡ min self.old.piece (min (length buf.old) (length self.old.left))) }
        ensures ok { IfOk result (λ k. self.new ≡ record self.old { left = drop k self.old.left; calls = one_more self.old.calls }) }
        ensures err { OnErr result (self.new ≡ record self.old { calls = one_more self.old.calls; faults = one_more self.old.faults }) }
    {
        if self.calls.begin() {
            self.calls.fault();
            return Err(Failed);
        }
        let given = copy_prefix(&self.bytes[self.at..], buf, self.piece as usize);
        self.at += given;
        Ok(given)
    }
}

/// A sink over memory. It tells the bytes that it holds.
#[derive(Drop)]
pub struct MemSink {
    bytes: Vec<u8>,
    room: u32,
    part: u32,
    calls: Calls,
}

impl Model for MemSink {
    ghost use Rattle.std.specs.Prelude.{ℕ, ◌≤◌, length, vec_capacity};
    ghost use Rattle.pm_io.specs.Memory.{Store};

    ghost Value = { Store };

    ghost view = { λ s. record { holds = s.bytes.items; room = s.room; part = s.part; fail = s.calls.fail.items; calls = s.calls.made; faults = s.calls.faults } };

    ghost invariant = { λ s. (length s.bytes.items ≤ s.room) × (s.room ≤ vec_capacity s.bytes) };
}

impl MemSink {
    /// An empty sink with room for `room` bytes, which are reserved here: no later call takes memory. Its calls of
    /// `write` and `flush` are numbered together from 1, and those whose numbers stand in `fail` fail; a call after
    /// number 4294967295 has no number. A `write` whose piece is longer than the room left fails too. A failing
    /// `write` keeps the first `part` bytes of its piece, as far as the room left holds them.
    pub fn new(alloc: Global, room: u32, part: u32, fail: Vec<u32>) -> Result<MemSink, AllocError>
        ensures { IfOk result (λ s. s ≡ record { holds = []; room = room; part = part; fail = fail.items; calls = 0; faults = 0 }) }
    {
        Ok(MemSink {
            bytes: Vec::with_capacity(alloc, room as usize)?,
            room,
            part,
            calls: Calls::new(fail),
        })
    }

    /// The bytes that the sink holds.
    pub fn bytes(&self) -> &[u8]
        ensures { result.now ≡ self.now.holds }
    {
        self.bytes.as_slice()
    }
}

/// Appends to a vector that has room.
fn append_reserved(bytes: &mut Vec<u8>, piece: &[u8])
    requires { vec_len bytes.old + length piece.now ≤ vec_capacity bytes.old }
    ensures items { bytes.new.items ≡ bytes.old.items ++ piece.now }
    ensures capacity { vec_capacity bytes.old ≤ vec_capacity bytes.new }
{
    bytes.extend_from_slice(piece).unwrap();
}

impl Sink for MemSink {
    ghost holds = { λ s. Some s.holds };

    ghost faults = { λ s. capped s.faults };

    ghost use Rattle.pm_io.specs.Faults.{capped-le};

    ghost bounded = { λ s. capped-le s.faults };

    fn write(&mut self, piece: &[u8]) -> Result<(), Failed>
        // as every sink
        ensures whole { OnOk result (Some self.new.holds ≡ Some (self.old.holds ++ piece.now)) }
        ensures prefix { OnErr result ((n : ℕ) × (Some self.new.holds ≡ Some (self.old.holds ++ take n piece.now))) }
        ensures calm { OnOk result (capped self.new.faults ≡ capped self.old.faults) }
        ensures cause { OnErr result (FaultsRose (capped self.old.faults) (capped self.new.faults)) }
        ensures later { capped self.old.faults ≤ capped self.new.faults }

        // which calls fail, what a failing call keeps, and all that it leaves
        ensures fails { IsErr result ↔ FailsToWrite self.old piece.now }
        ensures ok { OnOk result (self.new ≡ record self.old { holds = self.old.holds ++ piece.now; calls = one_more self.old.calls }) }
        ensures err { OnErr result (self.new ≡ record self.old { holds = self.old.holds ++ kept self.old piece.now; calls = one_more self.old.calls; faults = one_more self.old.faults }) }
    {
        let is_chosen = self.calls.begin();
        let spare = self.room as usize - self.bytes.len();
        if !is_chosen && piece.len() <= spare {
            append_reserved(&mut self.bytes, piece);
            return Ok(());
        }
        let kept = (self.part as usize).min(spare).min(piece.len());
        append_reserved(&mut self.bytes, &piece[..kept]);
        self.calls.fault();
        Err(Failed)
    }

    fn flush(&mut self) -> Result<(), Failed>
        // as every sink
        ensures stays { Some self.new.holds ≡ Some self.old.holds }
        ensures calm { OnOk result (capped self.new.faults ≡ capped self.old.faults) }
        ensures cause { OnErr result (FaultsRose (capped self.old.faults) (capped self.new.faults)) }
        ensures later { capped self.old.faults ≤ capped self.new.faults }

        // which calls fail, and all that it leaves
        ensures fails { IsErr result ↔ FailsNext self.old.fail self.old.calls }
        ensures ok { OnOk result (self.new ≡ record self.old { calls = one_more self.old.calls }) }
        ensures err { OnErr result (self.new ≡ record self.old { calls = one_more self.old.calls; faults = one_more self.old.faults }) }
    {
        if self.calls.begin() {
            self.calls.fault();
            return Err(Failed);
        }
        Ok(())
    }
}
