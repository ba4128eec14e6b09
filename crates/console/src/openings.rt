// Reading the line that opens a site.
ghost use Rattle.std.specs.Prelude.{◌≡◌, ℕ, ◌≤◌, List, length, Some, None, IfSome, MatchOption};
ghost use Rattle.std.specs.Option.{option_map};
ghost use Rattle.ground.specs.Listing.{Link};
ghost use Rattle.console.specs.Commands.{behind, first_number, first_column};
ghost use Rattle.console.specs.Openings.{behind_three, border_in, ends_in, kind_in, link_in, links_in, listing_in, numbers_in, opening_in, square_in};
ghost use Rattle.console.specs.View.{opening_of};

use crate::cut::place_of;
use crate::lists::Lists;
use crate::opening::{Numbers, Opening};
use crate::reading::{column_in, next_column};
use crate::words::Words;
use sheet::number;
use std::alloc::{AllocError, Global};

// The number that the next word is.
fn next_number(words: &mut Words<'_>) -> Option<u32>
    ensures value { result ≡ first_number words.old }
    ensures after { words.new ≡ behind words.old }
{
    number(words.next_word()?)
}

// The numbers of the settings that the next words are.
fn numbers_in(words: &mut Words<'_>) -> Option<Numbers>
    ensures value { result ≡ numbers_in words.old }
    ensures after { IfSome result (λ n. words.new ≡ behind_three words.old) }
{
    let levels = next_number(words)?;
    let robots = next_number(words)?;
    let set = next_number(words)?;
    Some(Numbers {
        levels,
        robots,
        set,
    })
}

// The sides and the settings of a square ground.
fn square_in(words: &mut Words<'_>) -> Option<Opening>
    ensures { (border : List ℕ) → (links : List Link) → option_map (opening_of border links) result ≡ square_in words.old }
{
    let x = next_number(words)?;
    let y = next_number(words)?;
    let numbers = numbers_in(words)?;
    words.is_done().then_some(Opening::Square { x, y, numbers })
}

// The link between the columns that two texts are.
fn ends_in(low: &[u8], high: &[u8]) -> Option<(u16, u16)>
    ensures { result ≡ ends_in low.now high.now }
{
    let low = column_in(low)?;
    let high = column_in(high)?;
    Some((low, high))
}

// The link that a word is.
fn link_in(word: &[u8]) -> Option<(u16, u16)>
    ensures { result ≡ link_in word.now }
{
    let (low, rest) = word.split_at(place_of(word, b'-'));
    let [_, high @ ..] = rest else {
        return None;
    };
    ends_in(low, high)
}

impl Lists {
    // Room for the border list and the links of any line.
    pub(crate) fn new(heap: Global) -> Result<Lists, AllocError> {
        Ok(Lists {
            border: Vec::with_capacity(heap, 65_536)?,
            links: Vec::with_capacity(heap, 65_536)?,
        })
    }

    // Puts the border list that a word is into its place.
    fn read_border(&mut self, word: &[u8]) -> Option<()>
        requires { length word.now ≤ 65536 }
        ensures value { MatchOption result (border_in word.now ≡ None) (λ _. border_in word.now ≡ Some self.new.border.items) }
        ensures links { self.new.links.items ≡ self.old.links.items }
    {
        self.border.clear();
        for byte in word {
            match byte {
                b'0' => self.border.push_reserved(0),
                b'1' => self.border.push_reserved(1),
                _ => return None,
            }
        }
        Some(())
    }

    // Puts the links that the words are into their place.
    fn read_links(&mut self, words: &mut Words<'_>) -> Option<()>
        requires { length words.old ≤ 65536 }
        ensures value { MatchOption result (links_in words.old ≡ None) (λ _. links_in words.old ≡ Some self.new.links.items) }
        ensures border { self.new.border.items ≡ self.old.border.items }
    {
        self.links.clear();
        while let Some(word) = words.next_word() {
            self.links.push_reserved(link_in(word)?);
        }
        Some(())
    }

    // The columns, the settings, the border list and the links of a listed ground.
    fn listing_in(&mut self, words: &mut Words<'_>) -> Option<Opening>
        ensures { option_map (opening_of self.new.border.items self.new.links.items) result ≡ listing_in words.old }
    {
        let columns = next_column(words)?;
        let numbers = numbers_in(words)?;
        self.read_border(words.next_word()?)?;
        self.read_links(words)?;
        Some(Opening::Listed { columns, numbers })
    }

    // What a line opens by the word behind the first.
    fn kind_in(&mut self, kind: &[u8], words: &mut Words<'_>) -> Option<Opening>
        ensures { option_map (opening_of self.new.border.items self.new.links.items) result ≡ kind_in kind.now words.old }
    {
        match kind {
            b"square" => square_in(words),
            b"listed" => self.listing_in(words),
            _ => None,
        }
    }

    // What a line opens, with the border list and the links in their places.
    pub(crate) fn opening_in(&mut self, words: &mut Words<'_>) -> Option<Opening>
        ensures { option_map (opening_of self.new.border.items self.new.links.items) result ≡ opening_in words.old }
    {
        let Some(b"open") = words.next_word() else {
            return None;
        };
        let kind = words.next_word()?;
        self.kind_in(kind, words)
    }
}
