// What is left of a script, from the line of a number on.
use std::marker::Model;

#[derive(Drop)]
pub(crate) struct Script<'a> {
    pub(crate) rest: &'a [u8],
    pub(crate) line: usize,
}

impl<'a> Model for Script<'a> {
    ghost use Rattle.std.specs.Prelude.{◌+◌, ◌≤◌, List, length};
    ghost use Rattle.console.specs.Lines.{Entry, entries, lines};

    ghost Value = { List Entry };

    ghost view = { λ s. entries s.line 0 (lines s.rest.now) };

    ghost invariant = { λ s. (s.line + length (lines s.rest.now) ≤ 8194) × (length s.rest.now ≤ 65536) };
}
