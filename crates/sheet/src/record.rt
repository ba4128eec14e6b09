// What the lines of a sheet show, and how their fields are read.
ghost use Rattle.std.specs.Prelude.{◌≡◌};
ghost use Rattle.sheet.specs.Records.{goal_in, act_in, end_in};
ghost use Rattle.sheet.specs.Kinds.{answer_of};

use crate::field::{carry_in, from_place, is_blank, letter_in, number, to_place};
use crate::unread::Unread;

// The letter of an action: move, pick up or deliver.
#[derive(Clone, Copy, PartialEq, Eq, Debug)]
pub enum Letter {
    M,
    P,
    D,
}

// A column or a height as it is written: a number, or the mark that stands for outside. No Option, since a field is read
// as an Option<Place>, and None would then have two meanings.
#[derive(Clone, Copy, PartialEq, Eq, Debug)]
pub enum Place {
    Outside,
    At(u32),
}

// Where an action starts from or leads to, as it is written.
#[derive(Clone, Copy, PartialEq, Eq, Debug)]
pub struct Side {
    pub column: Place,
    pub height: Place,
}

// An ACT line as it is written, with its line number.
#[derive(Clone, Copy, PartialEq, Eq, Debug)]
pub struct ActLine {
    pub line: u16,
    pub start: u32,
    pub end: u32,
    pub from: Side,
    pub carry: bool,
    pub letter: Letter,
    pub to: Side,
}

// What a line shows.
#[derive(Clone, Copy, PartialEq, Eq, Debug)]
pub enum Record {
    Goal { column: u32, height: u32 },
    Act(ActLine),
    Note,
    End { count: u32 },
}

// What the fields of a GOAL line show, or the first thing that cannot be read.
// Form, here and below: at the first field that shows nothing reading stops, and tells that field's number.
pub(crate) fn goal_in(fields: &[u8; 30]) -> Result<Record, Unread>
    ensures { answer_of result ≡ goal_in fields.now }
{
    let Some(column) = number(&fields[0..6]) else {
        return Err(Unread::Field(1));
    };
    let Some(height) = number(&fields[6..12]) else {
        return Err(Unread::Field(2));
    };
    if !is_blank(&fields[12..30]) {
        return Err(Unread::Rest);
    }
    Ok(Record::Goal { column, height })
}

// The same of an END line.
pub(crate) fn end_in(fields: &[u8; 30]) -> Result<Record, Unread>
    ensures { answer_of result ≡ end_in fields.now }
{
    let Some(count) = number(&fields[0..6]) else {
        return Err(Unread::Field(1));
    };
    if !is_blank(&fields[6..30]) {
        return Err(Unread::Rest);
    }
    Ok(Record::End { count })
}

// The same of the ACT line of a number.
pub(crate) fn act_in(line: u16, fields: &[u8; 30]) -> Result<Record, Unread>
    ensures { answer_of result ≡ act_in line fields.now }
{
    let Some(start) = number(&fields[0..6]) else {
        return Err(Unread::Field(1));
    };
    let Some(end) = number(&fields[6..12]) else {
        return Err(Unread::Field(2));
    };
    let Some(from_column) = from_place(&fields[12..16]) else {
        return Err(Unread::Field(3));
    };
    let Some(from_height) = from_place(&fields[16..19]) else {
        return Err(Unread::Field(4));
    };
    let Some(carry) = carry_in(&fields[19..21]) else {
        return Err(Unread::Field(5));
    };
    let Some(letter) = letter_in(&fields[21..23]) else {
        return Err(Unread::Field(6));
    };
    let Some(to_column) = to_place(&fields[23..27]) else {
        return Err(Unread::Field(7));
    };
    let Some(to_height) = to_place(&fields[27..30]) else {
        return Err(Unread::Field(8));
    };
    Ok(Record::Act(ActLine {
        line,
        start,
        end,
        from: Side {
            column: from_column,
            height: from_height,
        },
        carry,
        letter,
        to: Side {
            column: to_column,
            height: to_height,
        },
    }))
}
