ghost use Rattle.std.specs.Prelude.{◌≡◌, ◌≢◌, ◌<◌, ◌^◌, ◌⊎◌, length, map, string_bytes, Result, Err, OnOk, IfErr, MatchResult};
ghost use Rattle.std.specs.Result.{IsErrOf};
ghost use Rattle.pm_io.specs.Bytes.{added};
ghost use Rattle.pm_io.specs.Faults.{FaultsRose};
ghost use Rattle.pm_cli.specs.declared.refusal.Stop.{Stop};
ghost use Rattle.pm_cli.specs.Ending.{Ends, IsTold, HasNothingLeft, ReadInput, ReadNothing, WriteWhole};
ghost use Rattle.pm_cli.specs.Headline.{IsHeadline};
ghost use Rattle.pm_cli.specs.Lines.{status_of, status_of_stop};
ghost use Rattle.pm_cli.specs.steps.Streams.{IsReading, IsToldFor};

use crate::answer::{answer, make};
use crate::class::each_class_has_laws;
use crate::command::Command;
use crate::refusal::{Limit, Refusal, Stop};
use crate::writing::write_text;
use pm_io::{Failed, MAX_BYTES, ReadRefusal, Sink, Source, read_all};
use std::alloc::Global;

// Reads the whole input.
fn read_input<S: Source>(alloc: Global, input: &mut S) -> Result<Vec<u8>, Stop>
    ensures read { IsReading (S.left input.old) (S.left input.new) (S.faults input.old) (S.faults input.new) result }
{
    match read_all(alloc, input, MAX_BYTES) {
        Ok(bytes) => Ok(bytes),
        Err(ReadRefusal::Memory) => Err(Stop::Memory),
        Err(ReadRefusal::Read) => Err(Stop::Read),
        Err(ReadRefusal::TooLong) => Err(Stop::Refused(Refusal::Limited(Limit::Bytes))),
    }
}

// Does what the words say: reads, answers and writes, or makes what it writes of a size.
fn perform<S: Source, O: Sink>(
    alloc: Global,
    words: &[String],
    input: &mut S,
    out: &mut O,
) -> Result<(), Stop>
    ensures ends { Ends (map string_bytes words.now) (S.left input.old) (O.holds out.old) (O.holds out.new) result }

    ensures nothing_added { IfErr result (λ stop. stop ≢ Stop.Write → (stop ≡ Stop.Memory → WriteWhole (map string_bytes words.now))
        → O.holds out.new ≡ O.holds out.old) }
    ensures all_read { OnOk result (ReadInput (map string_bytes words.now) → HasNothingLeft (S.left input.old) (S.left input.new)) }
    ensures unread { ReadNothing (map string_bytes words.now) → input.new ≡ input.old }
    ensures untouched { IfErr result (λ stop. status_of_stop stop ≡ 2 → input.new ≡ input.old) }
    ensures read { IsErrOf result Stop.Read → FaultsRose (S.faults input.old) (S.faults input.new) }
    ensures calm_read { MatchResult result (λ _. S.faults input.new ≡ S.faults input.old)
        (λ stop. stop ≢ Stop.Read → S.faults input.new ≡ S.faults input.old) }
    ensures write { IsErrOf result Stop.Write → FaultsRose (O.faults out.old) (O.faults out.new) }
    ensures calm_write { MatchResult result (λ _. O.faults out.new ≡ O.faults out.old)
        (λ stop. stop ≢ Stop.Write → O.faults out.new ≡ O.faults out.old) }
{
    let command = match Command::of_words(alloc, words) {
        Ok(Ok(command)) => command,
        Ok(Err(matched)) => return Err(Stop::Refused(Refusal::Usage { matched })),
        Err(_) => return Err(Stop::Memory),
    };
    match &command {
        Command::Reads(reader) => {
            let bytes = match read_input(alloc, input) {
                Ok(bytes) => bytes,
                Err(stop) => return Err(stop),
            };
            let text = match answer(alloc, reader, &bytes) {
                Ok(text) => text,
                Err(stop) => return Err(stop),
            };
            write_text(out, &text)
        }
        Command::Makes { task, size } => make(alloc, task, size, out),
    }
}

// Tells why a run stopped, by a line; where there is no memory for the line of a refusal, that is what it tells.
fn tell<E: Sink>(alloc: Global, stop: Stop, err: &mut E) -> Stop
    ensures told { IsTold (E.holds err.old) (E.holds err.new) (E.faults err.old) (E.faults err.new) (Err result) }
    ensures same { IsToldFor stop result }
{
    let refusal = match stop {
        Stop::Refused(refusal) => refusal,
        Stop::Read => {
            write_line(err, b"planarmap: read\n");
            return Stop::Read;
        }
        Stop::Write => {
            write_line(err, b"planarmap: write\n");
            return Stop::Write;
        }
        Stop::Memory => {
            write_line(err, b"planarmap: memory\n");
            return Stop::Memory;
        }
    };
    match refusal.line(alloc) {
        Ok(line) => {
            write_line(err, line.as_bytes());
            Stop::Refused(refusal)
        }
        Err(_) => {
            write_line(err, b"planarmap: memory\n");
            Stop::Memory
        }
    }
}

// Writes a line to standard error. Where that fails there is nobody left to tell.
fn write_line<E: Sink>(err: &mut E, line: &[u8])
    ensures { (E.holds err.new ≡ added (E.holds err.old) line.now) ⊎ FaultsRose (E.faults err.old) (E.faults err.new) }
{
    match err.write(line) {
        Ok(()) => {}
        Err(Failed) => {}
    }
}

/// Does all that the program does: takes the words after the program's name, fewer than 2^32, reads `input`, writes the
/// answer to `out` and, where there is none, a line to `err`, and answers the status.
///
/// All input is read before the first write; `draw`, `trip` and `census` read nothing, and `draw` and `census` write record by
/// record. The statuses are 0 for an answer; 2 for words that are no command; 3, 4, 6, 7 and 12 for a file that is refused by
/// its text, its list, its map, a limit or the tree's rules, 7 also for a census of too many lists; 5 where `input` failed, 8
/// where `out` failed and 9 where memory was wanting, which may show before anything is read where a word spells a profile. A
/// failing `err` changes no status.
///
/// At 8 there is an answer, and a prefix of it was added to `out`. At 9 nothing was added, or by `draw` and `census` the first
/// records of the answer, which there is.
pub fn run<S: Source, O: Sink, E: Sink>(
    alloc: Global,
    words: &[String],
    input: &mut S,
    out: &mut O,
    err: &mut E,
) -> u8
    requires { length words.now < 2 ^ 32 }

    // One end accounts for the status, for what was added to `out`, and for the line that was added to `err`.
    ensures ends { (end : Result (Unit {0}) Stop) × (result ≡ status_of end)
        × Ends (map string_bytes words.now) (S.left input.old) (O.holds out.old) (O.holds out.new) end
        × IsTold (E.holds err.old) (E.holds err.new) (E.faults err.old) (E.faults err.new) end }
    ensures no_line { result ≡ 0 → err.new ≡ err.old }
    ensures nothing_added { result ≢ 0 → result ≢ 8 → (result ≡ 9 → WriteWhole (map string_bytes words.now))
        → O.holds out.new ≡ O.holds out.old }
    ensures all_read { result ≡ 0 → ReadInput (map string_bytes words.now) → HasNothingLeft (S.left input.old) (S.left input.new) }
    ensures untouched { result ≡ 2 → input.new ≡ input.old }
    ensures unread { ReadNothing (map string_bytes words.now) → input.new ≡ input.old }

    // A failure of the input is told by 5 and by no other status, one of the output by 8 and by no other.
    ensures read { result ≡ 5 → FaultsRose (S.faults input.old) (S.faults input.new) }
    ensures calm_input { result ≢ 5 → S.faults input.new ≡ S.faults input.old }
    ensures write { result ≡ 8 → FaultsRose (O.faults out.old) (O.faults out.new) }
    ensures calm_output { result ≢ 8 → O.faults out.new ≡ O.faults out.old }

    // For every class and admissible size, where the run was quiet: each valid list is sampled, each pair is unsampled, lists
    // and pairs are one to one, and all else is refused.
    ensures headline { IsHeadline (record {
      words = map string_bytes words.now;
      input = record { before = S.left input.old; after = S.left input.new; faults_before = S.faults input.old; faults_after = S.faults input.new };
      output = record { before = O.holds out.old; after = O.holds out.new; faults_before = O.faults out.old; faults_after = O.faults out.new };
      error = record { before = E.holds err.old; after = E.holds err.new; faults_before = E.faults err.old; faults_after = E.faults err.new };
      status = result;
    }) }
{
    each_class_has_laws();
    match perform(alloc, words, input, out) {
        Ok(()) => 0,
        Err(stop) => tell(alloc, stop, err).status(),
    }
}
