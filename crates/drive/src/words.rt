//! The words of a line.
ghost use Rattle.std.specs.Prelude.{◌≡◌, ◌∷◌, [], MatchOption};
ghost use Rattle.drive.specs.Words.{words_of};

use memchr::memchr;
use std::marker::Model;

/// The words of a line that are left: it is cut at each blank.
#[derive(Drop)]
pub(crate) struct Words<'a> {
    // What stands behind the last blank that was met, unless the last word was given.
    rest: &'a [u8],
    is_done: bool,
}

impl<'a> Model for Words<'a> {
    ghost use Rattle.std.specs.Prelude.{List, ℕ};
    ghost use Rattle.drive.specs.Words.{words_left};

    ghost Value = { List (List ℕ) };

    ghost view = { λ w. words_left w.is_done w.rest.now };
}

impl<'a> Words<'a> {
    /// The words of a line.
    pub(crate) fn of(line: &'a [u8]) -> Words<'a>
        ensures { result ≡ words_of line.now }
    {
        Words {
            rest: line,
            is_done: false,
        }
    }

    /// The next word; `None` where none is left.
    pub(crate) fn next(&mut self) -> Option<&'a [u8]>
        ensures { MatchOption result ((self.old ≡ []) × (self.new ≡ [])) (λ word. self.old ≡ word.now ∷ self.new) }
    {
        if self.is_done {
            return None;
        }
        let line = self.rest;
        match memchr(b' ', line) {
            Some(end) => {
                self.rest = &line[end + 1..];
                Some(&line[..end])
            }
            None => {
                self.is_done = true;
                Some(line)
            }
        }
    }
}
