//! Words of a line.
ghost use Rattle.std.specs.Prelude.{◌≡◌, ℕ, List, [], ◌∷◌, MatchOption, if◌then◌else◌};
ghost use Rattle.std.specs.List.{slice_split};
ghost use Rattle.pm_text.specs.Spaced.{is_space, words};

use crate::find::find;
use std::marker::Model;

/// The words of a text: the stretches between single spaces. Two spaces in a row give an empty word,
/// and so does a space at either end. An empty text has no word.
#[derive(Drop)]
pub struct Words<'a> {
    rest: &'a [u8],
    is_done: bool,
}

impl<'a> Model for Words<'a> {
    ghost Value = { List (List ℕ) };

    ghost view = { λ w. if w.is_done then [] else slice_split is_space w.rest.now };
}

impl<'a> Words<'a> {
    /// The words of `text`.
    pub fn new(text: &'a [u8]) -> Words<'a>
        ensures { result ≡ words text.now }
    {
        Words {
            rest: text,
            is_done: text.is_empty(),
        }
    }

    /// The next word, or `None` where there is no further one.
    pub fn next(&mut self) -> Option<&'a [u8]>
        ensures { MatchOption result ((self.old ≡ []) × (self.new ≡ []))
            (λ word. self.old ≡ word.now ∷ self.new) }
    {
        if self.is_done {
            return None;
        }
        let rest = self.rest;
        let place = find(rest, b' ');
        if place < rest.len() {
            self.rest = &rest[place + 1..];
        } else {
            self.is_done = true;
        }
        Some(&rest[..place])
    }
}
