// A line of a sheet, taken apart into its word, its fields and its newline.
ghost use Rattle.std.specs.Prelude.{◌≡◌, Some, None, MatchOption};
ghost use Rattle.terms.specs.Refusals.{Answers, first_of};
ghost use Rattle.sheet.specs.Lines.{word_in, fields, printable, record_in};
ghost use Rattle.sheet.specs.Kinds.{word_of, fields_of, place_of, line_tests};

use crate::record::{Record, act_in, end_in, goal_in};
use terms::{Refusal, Rule};

// How many bytes a line has, with its newline.
pub const LINE_LENGTH: usize = 35;

// A line of one of the four kinds: its number and the bytes of its fields. Form: an enum of borrowed lines, so that what a kind
// of line holds is said at the kind.
#[derive(Drop)]
pub(crate) enum Line<'a> {
    Goal { number: u16, fields: &'a [u8; 30] },
    Act { number: u16, fields: &'a [u8; 30] },
    Note { number: u16, fields: &'a [u8; 30] },
    End { number: u16, fields: &'a [u8; 30] },
}

// The line of a number, where its bytes begin with a word and end with a newline.
pub(crate) fn line_of(bytes: &[u8; LINE_LENGTH], number: u16) -> Option<Line<'_>>
    ensures { MatchOption result (word_in bytes.now ≡ None) (λ l. (word_in bytes.now ≡ Some (word_of l)) × (fields_of l ≡ fields bytes.now) × (place_of l ≡ number)) }
{
    // Form: one pattern shows the layout: a word of four bytes, the fields, and the newline.
    let [a, b, c, d, fields @ .., b'\n'] = bytes.as_slice() else {
        return None;
    };
    let fields = fields.as_array()?;
    match &[*a, *b, *c, *d] {
        b"GOAL" => Some(Line::Goal { number, fields }),
        b"ACT " => Some(Line::Act { number, fields }),
        b"NOTE" => Some(Line::Note { number, fields }),
        b"END " => Some(Line::End { number, fields }),
        _ => None,
    }
}

// Whether every byte can be printed.
fn is_printable(bytes: &[u8]) -> bool
    ensures { result ≡ printable bytes.now }
{
    bytes.iter().all(|b| (b' '..=b'~').contains(b))
}

// What the line of a number shows, or why it cannot be read.
pub(crate) fn read_line(bytes: &[u8; LINE_LENGTH], number: u16) -> Result<Record, Refusal>
    ensures { Answers (first_of (line_tests number bytes.now)) (λ x. record_in number bytes.now ≡ Some x) result }
{
    let misshapen = Refusal::at(Rule::LineShape, number, 0);
    let read = match line_of(bytes, number).ok_or(misshapen)? {
        Line::Goal { fields, .. } => goal_in(fields),
        Line::Act { number, fields } => act_in(number, fields),
        Line::Note { fields, .. } if is_printable(fields) => Ok(Record::Note),
        Line::Note { .. } => return Err(misshapen),
        Line::End { fields, .. } => end_in(fields),
    };
    read.map_err(|unread| unread.at(number))
}
