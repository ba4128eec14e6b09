// What an action says of columns and times.
ghost use Rattle.std.specs.Prelude.{◌≡◌, ◌&&◌, ◌==◌, nat_le};
ghost use Rattle.plan.specs.Plan.{carry_after, delivers, end_column, ends, picks, shares, starts};
ghost use Rattle.plan.specs.View.{action_of, end_of};

use crate::Action;
use terms::Work;

impl Action {
    // Where the robot stands after it, unless it is a leave.
    pub fn end_column(&self) -> u16
        ensures { result ≡ end_column (action_of self.now) }
    {
        match self.work {
            Work::Move => self.to.column,
            _ => self.from.column,
        }
    }

    // Whether the robot has a block after it.
    pub fn carry_after(&self) -> bool
        ensures { result ≡ carry_after (action_of self.now) }
    {
        match self.work {
            Work::PickUp => true,
            Work::Deliver => false,
            _ => self.carry,
        }
    }

    // Whether it is no entry and starts at a time from a column.
    pub fn starts(&self, time: u32, column: u16) -> bool
        ensures { result ≡ starts time column (action_of self.now) }
    {
        self.work != Work::Entry && self.span.start() == time && self.from.column == column
    }

    // Whether it is no leave and ends at a time at a column.
    pub fn ends(&self, time: u32, column: u16) -> bool
        ensures { result ≡ ends time column (action_of self.now) }
    {
        self.work != Work::Leave && self.span.end() == time && self.end_column() == column
    }

    // Whether its other column is this one, and it has ended by a time.
    fn is_done_at(&self, time: u32, column: u16) -> bool
        ensures { result ≡ (self.now.to.column == column && nat_le (end_of self.now.span) time) }
    {
        self.to.column == column && self.span.end() <= time
    }

    // Whether it has delivered to a column by a time.
    pub fn delivers(&self, time: u32, column: u16) -> bool
        ensures { result ≡ delivers time column (action_of self.now) }
    {
        self.work == Work::Deliver && self.is_done_at(time, column)
    }

    // Whether it has picked up from a column by a time.
    pub fn picks(&self, time: u32, column: u16) -> bool
        ensures { result ≡ picks time column (action_of self.now) }
    {
        self.work == Work::PickUp && self.is_done_at(time, column)
    }

    // Whether one of its columns is one of another's.
    pub fn shares(&self, other: &Action) -> bool
        ensures { result ≡ shares (action_of self.now) (action_of other.now) }
    {
        let columns = [other.from.column, other.to.column];
        columns.contains(&self.from.column) || columns.contains(&self.to.column)
    }
}
