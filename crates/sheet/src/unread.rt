// What of a line cannot be read.
ghost use Rattle.std.specs.Prelude.{◌≡◌};
ghost use Rattle.terms.specs.Refusals.{told, told_of};
ghost use Rattle.sheet.specs.Kinds.{detail_of};

use terms::{Refusal, Rule};

// The field of a number, counted from 1, or the rest of the line, which has to be blank.
#[derive(Clone, Copy, PartialEq, Eq, Debug)]
pub(crate) enum Unread {
    Field(u16),
    Rest,
}

impl Unread {
    // The refusal of the line of a number.
    pub(crate) fn at(self, line: u16) -> Refusal
        ensures { told_of result ≡ told Rule.FieldUnreadable line (detail_of self) }
    {
        let detail = match self {
            Unread::Field(field) => field,
            Unread::Rest => 0,
        };
        Refusal::at(Rule::FieldUnreadable, line, detail)
    }
}
