// The words of a line.
ghost use Rattle.std.specs.Prelude.{◌≡◌, ◌≤◌, [], ◌∷◌, length, IfSome, MatchOption, Decides};
ghost use Rattle.std.specs.Char.{is_ascii_whitespace};
ghost use Rattle.std.specs.List.{position_or_len};
ghost use Rattle.console.specs.Lines.{words};

use std::marker::Model;

// Those that are still to come, one after the other. No line is longer than the longest script.
#[derive(Drop)]
pub(crate) struct Words<'a> {
    rest: &'a [u8],
}

impl<'a> Model for Words<'a> {
    ghost use Rattle.std.specs.Prelude.{ℕ, ◌≤◌, List, length};
    ghost use Rattle.console.specs.Lines.{words};

    ghost Value = { List (List ℕ) };

    ghost view = { λ w. words w.rest.now };

    ghost invariant = { λ w. length w.rest.now ≤ 65536 };
}

impl<'a> Words<'a> {
    // The words of a line.
    pub(crate) fn of(line: &'a [u8]) -> Words<'a>
        requires { length line.now ≤ 65536 }
        ensures { result ≡ words line.now }
    {
        Words { rest: line }
    }

    // The next word, if there is one.
    pub(crate) fn next_word(&mut self) -> Option<&'a [u8]>
        ensures value { MatchOption result ((self.old ≡ []) × (self.new ≡ [])) (λ w. self.old ≡ w.now ∷ self.new) }
        ensures short { IfSome result (λ w. length w.now ≤ 65536) }
        ensures few { length self.old ≤ 65536 }
    {
        let line = self.rest.trim_ascii_start();
        let (word, rest) = line.split_at(word_end(line));
        self.rest = rest;
        (!word.is_empty()).then_some(word)
    }

    // Whether there is none.
    pub(crate) fn is_done(&mut self) -> bool
        ensures { Decides result (self.old ≡ []) }
    {
        self.next_word().is_none()
    }
}

// How many bytes of a line stand before its first white space.
fn word_end(line: &[u8]) -> usize
    ensures value { result ≡ position_or_len is_ascii_whitespace line.now }
    ensures bound { result ≤ length line.now }
{
    let first = line.iter().position(|b| b.is_ascii_whitespace());
    first.unwrap_or(line.len())
}
