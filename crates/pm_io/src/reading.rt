//! The reading of a whole input.
ghost use Rattle.std.specs.Prelude.{◌≡◌, ℕ, ◌+◌, ◌-◌, ◌≤◌, ◌<◌, [], length, take, drop, IfOk, IfSome, OnOk, OnErr, Some, vec_len, vec_capacity};
ghost use Rattle.std.specs.Result.{IsErrOf};
ghost use Rattle.pm_io.specs.Bytes.{without, TakesPrefix};
ghost use Rattle.pm_io.specs.Faults.{FaultsRose};

use crate::{Failed, MAX_BYTES, ReadRefusal, Source};
use std::alloc::{AllocError, Global};

/// The most bytes that are asked for at a time, 64 KiB.
const CHUNK: usize = 65_536;

/// Reads at most `most` bytes to the prefix of `buf`.
fn read_some<S: Source>(src: &mut S, buf: &mut [u8], most: usize) -> Result<usize, Failed>
    requires some { 0 < length buf.old }
    requires room { 0 < most }
    ensures count { IfOk result (λ k. (k ≤ most) × (k ≤ length buf.new)) }
    ensures bytes { IfOk result (λ k. IfSome (S.left src.old) (λ l. TakesPrefix k l buf.new)) }
    ensures taken { IfOk result (λ k. S.left src.new ≡ without k (S.left src.old)) }
    ensures stays { OnErr result (S.left src.new ≡ S.left src.old) }
    ensures calm { OnOk result (S.faults src.new ≡ S.faults src.old) }
    ensures cause { OnErr result (FaultsRose (S.faults src.old) (S.faults src.new)) }
    ensures later { S.faults src.old ≤ S.faults src.new }
{
    let room = most.min(buf.len());
    src.read(&mut buf[..room])
}

/// Reads to the end through `chunk`.
fn read_through<S: Source>(
    alloc: Global,
    src: &mut S,
    chunk: &mut [u8],
    limit: usize,
) -> Result<Vec<u8>, ReadRefusal>
    requires some { 0 < length chunk.old }
    requires small { limit ≤ MAX_BYTES }

    ensures within { IfOk result (λ v. vec_len v ≤ limit) }
    ensures whole { IfOk result (λ v. IfSome (S.left src.old) (λ l. (v.items ≡ l) × (S.left src.new ≡ Some []))) }
    ensures too_long { IsErrOf result ReadRefusal.TooLong → IfSome (S.left src.old) (λ l. limit < length l) }
    ensures rest { OnErr result ((n : ℕ) × (n ≤ limit + 1) × (S.left src.new ≡ without n (S.left src.old))) }

    ensures calm { OnOk result (S.faults src.new ≡ S.faults src.old) }
    ensures calm_too_long { IsErrOf result ReadRefusal.TooLong → S.faults src.new ≡ S.faults src.old }
    ensures calm_memory { IsErrOf result ReadRefusal.Memory → S.faults src.new ≡ S.faults src.old }
    ensures cause { IsErrOf result ReadRefusal.Read → FaultsRose (S.faults src.old) (S.faults src.new) }
    ensures later { S.faults src.old ≤ S.faults src.new }
{
    let mut bytes = Vec::new(alloc);
    'turns: loop {
        let Ok(count) = read_some(src, chunk, limit + 1 - bytes.len()) else {
            return Err(ReadRefusal::Read);
        };
        if count == 0 {
            return Ok(bytes);
        }
        if limit - bytes.len() < count {
            return Err(ReadRefusal::TooLong);
        }
        bytes.extend_from_slice(&chunk[..count])?;
    }
}

/// Reads a source to its end, if it has at most `limit` bytes left. It asks for at most one byte past the limit.
pub fn read_all<S: Source>(alloc: Global, src: &mut S, limit: usize) -> Result<Vec<u8>, ReadRefusal>
    requires { limit ≤ MAX_BYTES }

    // Where the source tells its bytes, `Ok` carries exactly what was left, and nothing is left.
    ensures within { IfOk result (λ v. vec_len v ≤ limit) }
    ensures whole { IfOk result (λ v. IfSome (S.left src.old) (λ l. (v.items ≡ l) × (S.left src.new ≡ Some []))) }
    ensures too_long { IsErrOf result ReadRefusal.TooLong → IfSome (S.left src.old) (λ l. limit < length l) }

    // What stands left after a refusal is a rest of what was left, without at most one byte past the limit.
    ensures rest { OnErr result ((n : ℕ) × (n ≤ limit + 1) × (S.left src.new ≡ without n (S.left src.old))) }

    // `Read` has a cause, and the other answers are none of a source that failed.
    ensures calm { OnOk result (S.faults src.new ≡ S.faults src.old) }
    ensures calm_too_long { IsErrOf result ReadRefusal.TooLong → S.faults src.new ≡ S.faults src.old }
    ensures calm_memory { IsErrOf result ReadRefusal.Memory → S.faults src.new ≡ S.faults src.old }
    ensures cause { IsErrOf result ReadRefusal.Read → FaultsRose (S.faults src.old) (S.faults src.new) }
    ensures later { S.faults src.old ≤ S.faults src.new }
{
    let mut chunk = vec![in alloc; 0u8; CHUNK]?;
    read_through(alloc, src, chunk.as_mut_slice(), limit)
}
