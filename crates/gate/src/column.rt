// One column of a site: its height, and what it does.
ghost use Rattle.std.specs.Prelude.{◌≡◌};
ghost use Rattle.gate.specs.Column.{built, column, stays, rest, robot_in, block_in, held, runs, stands, robot, carries, changes, ticked};

use ways::Tall;

// A column's part in an action that runs, with the action's other column where there is one.
#[derive(Clone, Copy, PartialEq, Eq, Debug)]
pub enum Part {
    Entering { block: bool },
    Leaving { block: bool },
    Departing { block: bool, to: u16 },
    Arriving { block: bool, from: u16 },
    Laying { to: u16 },
    Rising { from: u16 },
    Lifting { to: u16 },
    Sinking { from: u16 },
}

// What a column does: nothing, a robot stands there, or it has a part in an action, with the ticks left.
#[derive(Clone, Copy, PartialEq, Eq, Debug, Default)]
pub enum State {
    #[default]
    Free,
    Standing { block: bool },
    Busy { part: Part, left: u8 },
}

// By default it is free, at height 0.
#[derive(Clone, Copy, PartialEq, Eq, Debug, Default)]
pub struct Column {
    pub height: u8,
    pub state: State,
}

impl Part {
    // Whether a robot is at the column.
    fn has_robot(self) -> bool
        ensures { result ≡ robot_in self }
    {
        !matches!(
            self,
            Part::Arriving { .. } | Part::Rising { .. } | Part::Sinking { .. }
        )
    }

    // Whether that robot has a block.
    fn has_block(self) -> bool
        ensures { result ≡ block_in self }
    {
        match self {
            Part::Entering { block } | Part::Leaving { block } | Part::Departing { block, .. } =>
                block,
            Part::Laying { .. } => true,
            Part::Lifting { .. }
            | Part::Arriving { .. }
            | Part::Rising { .. }
            | Part::Sinking { .. } => false,
        }
    }

    // What the column is at the action's end.
    fn end(self, height: u8) -> Column
        ensures { result ≡ column (built self height) (rest (stays self)) }
    {
        let (height, state) = match self {
            Part::Entering { block } | Part::Arriving { block, .. } => (
                height,
                State::Standing { block },
            ),
            Part::Leaving { .. } | Part::Departing { .. } => (height, State::Free),
            Part::Laying { .. } => (height, State::Standing { block: false }),
            Part::Lifting { .. } => (height, State::Standing { block: true }),
            Part::Rising { .. } => (height.saturating_add(1), State::Free),
            Part::Sinking { .. } => (height.saturating_sub(1), State::Free),
        };
        Column { height, state }
    }
}

impl State {
    // Whether some robot holds the column.
    pub(crate) fn is_held(self) -> bool
        ensures { result ≡ held self }
    {
        !matches!(self, State::Free)
    }

    // Whether an action runs at the column.
    pub fn runs(self) -> bool
        ensures { result ≡ runs self }
    {
        matches!(self, State::Busy { .. })
    }

    // Whether a robot stands at the column: no action of it runs.
    pub(crate) fn stands(self) -> bool
        ensures { result ≡ stands self }
    {
        matches!(self, State::Standing { .. })
    }

    // Whether a robot is at the column.
    pub(crate) fn has_robot(self) -> bool
        ensures { result ≡ robot self }
    {
        match self {
            State::Free => false,
            State::Standing { .. } => true,
            State::Busy { part, .. } => part.has_robot(),
        }
    }

    // Whether a robot with a block is at the column.
    pub(crate) fn has_block(self) -> bool
        ensures { result ≡ carries self }
    {
        match self {
            State::Free => false,
            State::Standing { block } => block,
            State::Busy { part, .. } => part.has_block(),
        }
    }

    // Whether the column's height is about to change.
    pub(crate) fn is_changing(self) -> bool
        ensures { result ≡ changes self }
    {
        matches!(
            self,
            State::Busy {
                part: Part::Rising { .. } | Part::Sinking { .. },
                ..
            }
        )
    }
}

impl Column {
    // One timestep passes. Form: a match on the column's own state, with what is left of its action, in place.
    pub(crate) fn tick(&mut self)
        ensures { self.new ≡ ticked self.old }
    {
        match &mut self.state {
            State::Free | State::Standing { .. } => {}
            State::Busy { left, .. } if *left > 1 => *left -= 1,
            State::Busy { part, .. } => *self = part.end(self.height),
        }
    }
}

impl Tall for Column {
    ghost tallness = { λ x. x.height };

    fn height(&self) -> u8 {
        self.height
    }
}
