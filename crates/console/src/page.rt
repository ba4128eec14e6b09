// What is printed of a script.
use std::marker::Model;

// The most that is printed: 8,193 lines, each answered with at most 3,000 bytes.
pub(crate) const MOST_BYTES: usize = 24_579_000;

// What is printed so far, with room for the rest.
#[derive(Drop)]
pub(crate) struct Page {
    pub(crate) text: Vec<u8>,
}

impl Model for Page {
    ghost use Rattle.std.specs.Prelude.{ℕ, ◌≤◌, List, vec_capacity};

    ghost Value = { List ℕ };

    ghost view = { λ page. page.text.items };

    ghost invariant = { λ page. 24579000 ≤ vec_capacity page.text };
}
