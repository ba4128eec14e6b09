// The calls that a site takes.

#[derive(Clone, Copy, PartialEq, Eq, Debug)]
pub enum Call {
    Enter { column: u16, block: bool },
    Move { from: u16, to: u16 },
    Lay { from: u16, to: u16 },
    Lift { from: u16, to: u16 },
    Leave { column: u16 },
    Tick,
    Recall,
}
