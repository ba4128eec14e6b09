// An action of a plan: the work of a robot at some columns, over a span of time.
use crate::Span;
use terms::Work;

// A column and a height written for it.
#[derive(Clone, Copy, PartialEq, Eq, Debug)]
pub struct Spot {
    pub column: u16,
    pub height: u8,
}

// The robot is at `from` (of an entry: the column entered); `to` is the other column, and `from` where there is no other.
#[derive(Clone, Copy, PartialEq, Eq, Debug)]
pub struct Action {
    pub line: u16,
    pub work: Work,
    pub from: Spot,
    pub to: Spot,
    pub carry: bool,
    pub span: Span,
}
