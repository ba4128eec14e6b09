// What a line asks of an open site.
use gate::Call;

// The words that such a line begins with.
#[derive(Clone, Copy, PartialEq, Eq, Debug)]
pub(crate) enum Verb {
    Enter,
    Move,
    Lay,
    Lift,
    Leave,
    Tick,
    Recall,
    Clear,
    Look,
    Play,
}

// A call is made, so many ticks go by, the site is cleared or looked at, or the sheet below the line is played.
#[derive(Clone, Copy, PartialEq, Eq, Debug)]
pub(crate) enum Command {
    Makes(Call),
    Ticks(u32),
    Clear,
    Look,
    Play,
}
