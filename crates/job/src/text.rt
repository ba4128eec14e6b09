// Writing numbers and words onto a page.
ghost use Rattle.std.specs.Prelude.{◌≡◌, ℕ, ◌+◌, ◌<◌, ◌≤◌, List, [], ◌++◌, length, vec_capacity};
ghost use Rattle.terms.specs.Refusals.{told_of};
ghost use Rattle.draw.specs.Rows.{text as drawing};
ghost use Rattle.job.specs.Replies.{row, told_row};
ghost use Rattle.job.specs.Text.{cells, wide};

use crate::heights::Heights;
use draw::{draw, justified};
use std::marker::Model;
use terms::{Refusal, Reserve};

// The longest answer: a row of 23 bytes, and a drawing of 256 columns.
pub(crate) const MOST_BYTES: usize = 807;

// A number justified to the right in six places.
fn six(n: u64) -> [u8; 6]
    ensures value { result ≡ cells n }
    ensures words { n < 1000000 → result ≡ wide n }
{
    justified(n)
}

// What is written so far of an answer, with room for the longest.
// It takes bytes, and no `write!`: of that a proof knows the text only where no write fails.
#[derive(Drop)]
pub(crate) struct Page {
    text: Vec<u8>,
}

impl Model for Page {
    ghost Value = { List ℕ };

    ghost view = { λ page. page.text.items };

    ghost invariant = { λ page. 807 ≤ vec_capacity page.text };
}

// Each asks for as much room as it writes: how much is left, no type says.
impl Page {
    // A page with nothing on it.
    pub(crate) fn new(room: Reserve<u8, MOST_BYTES>) -> Page
        ensures { result ≡ [] }
    {
        Page {
            text: room.into_vec(),
        }
    }

    // Adds bytes.
    fn put(&mut self, bytes: &[u8])
        requires { length self.old + length bytes.now ≤ 807 }
        ensures { self.new ≡ self.old ++ bytes.now }
    {
        self.text.extend_from_slice(bytes).unwrap();
    }

    // Adds a word and three numbers, six wide each, and a newline.
    pub(crate) fn put_row(&mut self, word: &[u8; 4], a: u64, b: u64, c: u64)
        requires { length self.old + 23 ≤ 807 }
        ensures { self.new ≡ self.old ++ row word.now a b c }
    {
        self.put(word);
        self.put(&six(a));
        self.put(&six(b));
        self.put(&six(c));
        self.put(b"\n");
    }

    // Adds a word and the number, line and detail of a refusal.
    pub(crate) fn put_refusal(&mut self, word: &[u8; 4], refusal: Refusal)
        requires { length self.old + 23 ≤ 807 }
        ensures { self.new ≡ self.old ++ told_row word.now (told_of refusal) }
    {
        let Refusal { rule, line, detail } = refusal;
        self.put_row(word, rule.number().into(), line.into(), detail.into());
    }

    // Adds the drawing of heights.
    #[tactic(auto, using(draw::proofs::Texts::length_text))]
    pub(crate) fn put_drawing(&mut self, heights: &Heights)
        requires { length self.old + 784 ≤ 807 }
        ensures { self.new ≡ self.old ++ drawing heights.now.values.items }
    {
        let mut buffer = [0; 784];
        if let Ok(size) = draw(&heights.values, &mut buffer) {
            self.put(&buffer[..size]);
        }
    }

    // What is written.
    pub(crate) fn into_vec(self) -> Vec<u8>
        ensures { result.items ≡ self }
    {
        let Page { text } = self;
        text
    }
}
