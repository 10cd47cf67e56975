//! Lines of a text.
ghost use Rattle.std.specs.Prelude.{◌≡◌, ℕ, ◌++◌, ◌≤◌, ◌↔◌, [], length, take, drop, IsNone, MatchOption};
ghost use Rattle.pm_text.specs.Reading.{Reading, reading_of, reading_at, IsNextLine};

use crate::find::find;
use std::marker::Model;

/// A line of a text.
#[derive(Clone, Copy)]
pub struct Line<'a> {
    /// The bytes before the newline.
    pub text: &'a [u8],
    /// Whether a newline ended the line. The last line of a text may be unfinished.
    pub ended: bool,
    /// The place after the line and its newline, counted in bytes from the start of the text.
    pub after: usize,
}

/// The lines of a text, from the first on.
#[derive(Drop)]
pub struct Lines<'a> {
    bytes: &'a [u8],
    given: usize,
}

impl<'a> Model for Lines<'a> {
    ghost Value = { Reading };

    ghost view = { λ lines. reading_at lines.bytes.now lines.given };

    ghost invariant = { λ lines. lines.given ≤ length lines.bytes.now };
}

impl<'a> Lines<'a> {
    /// The lines of `bytes`.
    pub fn new(bytes: &'a [u8]) -> Lines<'a>
        ensures { result ≡ reading_of bytes.now }
    {
        Lines { bytes, given: 0 }
    }

    /// The bytes that are left.
    pub fn rest(&self) -> &'a [u8]
        ensures { result.now ≡ self.now.rest }
    {
        let bytes = self.bytes;
        &bytes[self.given..]
    }

    /// Gives out so many of the bytes that are left, which the caller has read.
    pub fn skip(&mut self, count: usize)
        requires { count ≤ length self.old.rest }
        ensures { self.new ≡ record { given = self.old.given ++ take count self.old.rest; rest = drop count self.old.rest } }
    {
        self.given += count;
    }

    /// The next line, or `None` where all bytes were given.
    pub fn next(&mut self) -> Option<Line<'a>>
        ensures none { IsNone result ↔ (self.old.rest ≡ []) }
        ensures cases { MatchOption result (self.new ≡ self.old)
            (λ line. IsNextLine self.old self.new line.text.now line.ended line.after) }
        ensures whole { self.new.given ++ self.new.rest ≡ self.old.given ++ self.old.rest }
    {
        let bytes = self.bytes;
        let rest = &bytes[self.given..];
        if rest.is_empty() {
            return None;
        }
        let place = find(rest, b'\n');
        let ended = place < rest.len();
        self.given += place;
        if ended {
            self.given += 1;
        }
        Some(Line {
            text: &rest[..place],
            ended,
            after: self.given,
        })
    }
}
