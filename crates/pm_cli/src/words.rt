//! Which words are a command.
ghost use Rattle.std.specs.Prelude.{◌≡◌, ◌≢◌, ◌<◌, ◌≤◌, ◌^◌, ◌↔◌, ℕ, [], ◌∷◌, codes, map, decimal, string_bytes, IsTrue, IfOk, MatchOption, MatchResult};
ghost use Rattle.pm_cli.specs.declared.words.TheConstants.{MAX_RECORDS};
ghost use Rattle.pm_cli.specs.declared.command.Command.{Command};
ghost use Rattle.pm_cli.specs.declared.command.Command.TheVariants.{Reads};
ghost use Rattle.pm_cli.specs.declared.command.Verb.{Verb};
ghost use Rattle.pm_cli.specs.declared.command.Verb.TheVariants.{Open, Draw, Trip};
ghost use Rattle.pm_cli.specs.declared.command.Reader.{Reader};
ghost use Rattle.pm_cli.specs.Classes.{IsSize};
ghost use Rattle.pm_cli.specs.Commands.{size_words, Spells, IsNoCommand, AreDrawNumbers, number_words};
ghost use Rattle.pm_cli.specs.steps.Words.{StopsAt, IsOneOf, IsWordOf, AreSizeWords, AreNumberWords, AreSeedWords, AreDrawWords, AreTripWords, AreBehind, IsBehind};

use crate::class::{Class, Size, Spelled};
use crate::command::{Command, Maker, Reader, Verb};
use pm_text::number;
use std::alloc::{AllocError, Global};

/// The greatest number of records that one command draws.
pub const MAX_RECORDS: u64 = 1000;

// The number is part of the program's manual: another one is refused here.
const _: () = prove!(MAX_RECORDS == 1_000);

// Whether the word is this text.
fn is_word(word: &String, text: &str) -> bool
    ensures { IsTrue result ↔ (string_bytes word.now ≡ text.now) }
{
    word.as_str() == text
}

// The count of records that the word spells, where there is one.
fn record_count(word: &String) -> Option<u64>
    ensures { MatchOption result
        ((count : ℕ) → 0 < count → count ≤ MAX_RECORDS → string_bytes word.now ≢ decimal count)
        (λ count. (0 < count) × (count ≤ MAX_RECORDS) × (string_bytes word.now ≡ decimal count)) }
{
    let Some(count) = number(word.as_bytes()) else {
        return None;
    };
    if 0 < count && count <= MAX_RECORDS {
        Some(count)
    } else {
        None
    }
}

// A class and a size of it at the prefix of the words, and the words behind them.
#[derive(Drop)]
struct Sized<'a> {
    size: Size,
    rest: &'a [String],
}

// Reads a class and a size of it, or says how many words begin them.
fn read_size(alloc: Global, words: &[String]) -> Result<Result<Sized<'_>, u32>, AllocError>
    ensures { IfOk result (λ found. MatchResult found
        (λ read. IsSize read.size × (map string_bytes words.now ≡ size_words read.size (map string_bytes read.rest.now)))
        (λ k. (k < 2) × StopsAt AreSizeWords (map string_bytes words.now) k)) }
{
    let Some((first, behind)) = words.split_first() else {
        return Ok(Err(0));
    };
    let Some(class) = Class::of_word(first) else {
        return Ok(Err(0));
    };
    let Some((second, rest)) = behind.split_first() else {
        return Ok(Err(1));
    };
    match Size::of_word(alloc, class, second)? {
        Some(size) => Ok(Ok(Sized { size, rest })),
        None => Ok(Err(1)),
    }
}

// Reads a class and a size of it, which are all the words, or says how many of them begin such words.
fn size_alone(alloc: Global, words: &[String]) -> Result<Result<Size, u32>, AllocError>
    ensures { IfOk result (λ found. MatchResult found
        (λ size. IsSize size × (map string_bytes words.now ≡ size_words size []))
        (λ k. (k < 3) × StopsAt AreSizeWords (map string_bytes words.now) k)) }
{
    match read_size(alloc, words)? {
        Ok(Sized { size, rest }) => {
            if rest.is_empty() {
                Ok(Ok(size))
            } else {
                Ok(Err(2))
            }
        }
        Err(matched) => Ok(Err(matched)),
    }
}

// Reads a seed and a count, which are all the words, or says how many of them begin such words.
fn read_numbers(words: &[String]) -> Result<(u64, u64), u32>
    ensures { MatchResult result
        (λ read. AreDrawNumbers read.0 read.1 × (map string_bytes words.now ≡ number_words read.0 read.1))
        (λ k. (k < 3) × StopsAt AreNumberWords (map string_bytes words.now) k) }
{
    let Some((first, behind)) = words.split_first() else {
        return Err(0);
    };
    let Some(seed) = number(first.as_bytes()) else {
        return Err(0);
    };
    let Some((second, rest)) = behind.split_first() else {
        return Err(1);
    };
    let Some(count) = record_count(second) else {
        return Err(1);
    };
    if rest.is_empty() {
        Ok((seed, count))
    } else {
        Err(2)
    }
}

// Reads a seed, which is the only word, or says how many of the words begin it.
fn seed_alone(words: &[String]) -> Result<u64, u32>
    ensures { MatchResult result
        (λ seed. (seed < 2 ^ 64) × (map string_bytes words.now ≡ decimal seed ∷ []))
        (λ k. (k < 2) × StopsAt AreSeedWords (map string_bytes words.now) k) }
{
    let Some((first, rest)) = words.split_first() else {
        return Err(0);
    };
    let Some(seed) = number(first.as_bytes()) else {
        return Err(0);
    };
    if rest.is_empty() { Ok(seed) } else { Err(1) }
}

// Reads the one word `eulerian`, or says how many of the words begin it.
fn eulerian_alone(words: &[String]) -> Result<(), u32>
    ensures { MatchResult result (λ _. map string_bytes words.now ≡ codes "eulerian" ∷ [])
        (λ k. (k < 2) × StopsAt (AreBehind Open) (map string_bytes words.now) k) }
{
    let Some((first, rest)) = words.split_first() else {
        return Err(0);
    };
    if !is_word(first, "eulerian") {
        return Err(0);
    }
    if rest.is_empty() { Ok(()) } else { Err(1) }
}

// Reads one word alone, or says how many of the words begin such words.
fn alone<W: Spelled>(words: &[String]) -> Result<W, u32>
    ensures { MatchResult result (λ it. map string_bytes words.now ≡ W.word_of it ∷ [])
        (λ k. (k < 2) × StopsAt (IsOneOf (IsWordOf W.word_of)) (map string_bytes words.now) k) }
{
    let Some((first, rest)) = words.split_first() else {
        return Err(0);
    };
    let Some(it) = W::of_word(first) else {
        return Err(0);
    };
    if rest.is_empty() { Ok(it) } else { Err(1) }
}

impl Command {
    // The command whose words are a verb and these words behind it, or how many of them may stand there.
    fn of_verb(
        alloc: Global,
        verb: Verb,
        words: &[String],
    ) -> Result<Result<Command, u32>, AllocError>
        ensures { IfOk result (λ found. MatchResult found (IsBehind verb (map string_bytes words.now))
            (λ k. (k < 5) × StopsAt (AreBehind verb) (map string_bytes words.now) k)) }
    {
        match verb {
            Verb::Close => Ok(alone(words).map(|trees| Command::Reads(Reader::Close(trees)))),
            Verb::Open => Ok(eulerian_alone(words).map(|()| Command::Reads(Reader::OpenEulerian))),
            Verb::OfMap(task) => {
                if words.is_empty() {
                    Ok(Ok(Command::Reads(Reader::OfMap(task))))
                } else {
                    Ok(Err(0))
                }
            }
            Verb::Check => Ok(alone(words).map(|class| Command::Reads(Reader::Check(class)))),
            Verb::Unsample => Ok(alone(words).map(|class| Command::Reads(Reader::Unsample(class)))),
            Verb::Sample => Ok(size_alone(alloc, words)?.map(|size| Command::Reads(Reader::Sample(
                size,
            )))),
            Verb::Draw => Command::of_draw(alloc, words),
            Verb::Trip => Command::of_trip(alloc, words),
            Verb::Census => Ok(size_alone(alloc, words)?.map(|size| Command::Makes {
                task: Maker::Census,
                size,
            })),
        }
    }

    // The same behind `draw`.
    fn of_draw(alloc: Global, words: &[String]) -> Result<Result<Command, u32>, AllocError>
        ensures { IfOk result (λ found. MatchResult found (IsBehind Draw (map string_bytes words.now))
            (λ k. (k < 5) × StopsAt AreDrawWords (map string_bytes words.now) k)) }
    {
        match read_size(alloc, words)? {
            Ok(Sized { size, rest }) => match read_numbers(rest) {
                Ok((seed, count)) => Ok(Ok(Command::Makes {
                    task: Maker::Draw { seed, count },
                    size,
                })),
                Err(matched) => Ok(Err(2 + matched)),
            },
            Err(matched) => Ok(Err(matched)),
        }
    }

    // The same behind `trip`.
    fn of_trip(alloc: Global, words: &[String]) -> Result<Result<Command, u32>, AllocError>
        ensures { IfOk result (λ found. MatchResult found (IsBehind Trip (map string_bytes words.now))
            (λ k. (k < 5) × StopsAt AreTripWords (map string_bytes words.now) k)) }
    {
        match read_size(alloc, words)? {
            Ok(Sized { size, rest }) => match seed_alone(rest) {
                Ok(seed) => Ok(Ok(Command::Makes {
                    task: Maker::Trip { seed },
                    size,
                })),
                Err(matched) => Ok(Err(2 + matched)),
            },
            Err(matched) => Ok(Err(matched)),
        }
    }

    // The command that the words spell, or how many of them begin one.
    pub(crate) fn of_words(
        alloc: Global,
        words: &[String],
    ) -> Result<Result<Command, u32>, AllocError>
        ensures { IfOk result (λ found. MatchResult found (Spells (map string_bytes words.now)) (IsNoCommand (map string_bytes words.now))) }
    {
        let Some((first, behind)) = words.split_first() else {
            return Ok(Err(0));
        };
        let Some(verb) = Verb::of_word(first) else {
            return Ok(Err(0));
        };
        match Command::of_verb(alloc, verb, behind)? {
            Ok(command) => Ok(Ok(command)),
            Err(matched) => Ok(Err(1 + matched)),
        }
    }
}
