// What is expected in place of a line.
use crate::command::Verb;

// An opening, any other line, the right form of a line that begins with this word, or no further sheet.
#[derive(Clone, Copy, PartialEq, Eq, Debug)]
pub(crate) enum Usage {
    Open,
    Other,
    Form(Verb),
    FewerSheets,
}
