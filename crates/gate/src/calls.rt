// The calls that the gate grants or refuses, and the passing of time.
ghost use Rattle.std.specs.Prelude.{◌≡◌, ◌<◌, ◌≤◌, [], ◌∷◌, None, length};
ghost use Rattle.terms.specs.Refusals.{first_of, refusal_in};
ghost use Rattle.terms.specs.View.{settings_of};
ghost use Rattle.gate.specs.declared.call.Call.TheVariants.{Enter, Move, Lay, Lift, Leave, Tick};
ghost use Rattle.gate.specs.declared.column.State.TheVariants.{Busy};
ghost use Rattle.gate.specs.Scene.{opened, put, tick_all, renewed_marks, tried, with_columns};
ghost use Rattle.gate.specs.Gate.{lowest_stranded, strands, changing, settle};
ghost use Rattle.gate.specs.Words.{Performed};
ghost use Rattle.gate.specs.View.{scene_of};

use crate::column::{Column, Part, State};
use crate::plot::Plot;
use crate::site::Site;
use crate::trial::try_change;
use ground::Ground;
use terms::{Refusal, Settings, Work};

impl<G: Ground> Site<G> {
    // Opens a site: no robot on it, all heights 0. Its room is there already, and no later call allocates.
    pub fn open(plot: Plot, ground: G, settings: Settings) -> Site<G>
        ensures { scene_of result ≡ opened (G.Ground.meaning ground) (settings_of settings) }
    {
        let columns = plot.lay_out(ground.columns());
        Site {
            floor: ground,
            settings,
            columns,
            marks: [0; 256],
        }
    }

    // Puts a column into a state, at the height that it has.
    fn put(&mut self, column: u16, state: State)
        ensures { scene_of self.new ≡ with_columns (scene_of self.old) (put (scene_of self.old).columns column state) }
    {
        if let Some(here) = self.columns.get_mut(usize::from(column)) {
            here.state = state;
        }
    }

    // Begins the two parts of an action. Columns and parts are named apart, since a part names the other column and not its own.
    fn begin(&mut self, from: u16, here: Part, to: u16, there: Part, left: u8)
        ensures { scene_of self.new ≡ with_columns (scene_of self.old) (put (put (scene_of self.old).columns from (Busy here left)) to (Busy there left)) }
    {
        self.put(from, State::Busy { part: here, left });
        self.put(to, State::Busy { part: there, left });
    }

    // Begins the two parts of a lay or a lift, unless a robot then has no way home while the column changes.
    fn change(
        &mut self,
        from: u16,
        here: Part,
        to: u16,
        there: Part,
        left: u8,
    ) -> Result<(), Refusal>
        requires { to < 256 }
        ensures answer { refusal_in result ≡ first_of (strands (lowest_stranded (scene_of self.old).meaning (scene_of self.old).columns (tried (scene_of self.old) to)) ∷ []) }
        ensures after { scene_of self.new ≡ settle (refusal_in result) (changing (scene_of self.old) from here to there left) (scene_of self.old) }
    {
        try_change(&self.floor, &self.columns, &mut self.marks, to)?;
        self.begin(from, here, to, there, left);
        Ok(())
    }

    // A robot enters at a border column, with or without a block.
    pub fn enter(&mut self, column: u16, block: bool) -> Result<(), Refusal>
        ensures { Performed (scene_of self.old) (Enter column block) (refusal_in result) (scene_of self.new) }
    {
        self.may_enter(column, block)?;
        let left = self.settings.duration(Work::Entry, block);
        self.put(
            column,
            State::Busy {
                part: Part::Entering { block },
                left,
            },
        );
        Ok(())
    }

    // A robot moves to a linked column.
    pub fn move_to(&mut self, from: u16, to: u16) -> Result<(), Refusal>
        ensures { Performed (scene_of self.old) (Move from to) (refusal_in result) (scene_of self.new) }
    {
        self.may_move(from, to)?;
        let block = self.look(from).state.has_block();
        let left = self.settings.duration(Work::Move, block);
        self.begin(
            from,
            Part::Departing { block, to },
            to,
            Part::Arriving { block, from },
            left,
        );
        Ok(())
    }

    // A robot lays its block on a linked column.
    pub fn lay(&mut self, from: u16, to: u16) -> Result<(), Refusal>
        ensures { Performed (scene_of self.old) (Lay from to) (refusal_in result) (scene_of self.new) }
    {
        self.may_lay(from, to)?;
        let left = self.settings.duration(Work::Deliver, true);
        self.change(from, Part::Laying { to }, to, Part::Rising { from }, left)
    }

    // A robot lifts a block from a linked column.
    pub fn lift(&mut self, from: u16, to: u16) -> Result<(), Refusal>
        ensures { Performed (scene_of self.old) (Lift from to) (refusal_in result) (scene_of self.new) }
    {
        self.may_lift(from, to)?;
        let left = self.settings.duration(Work::PickUp, false);
        self.change(from, Part::Lifting { to }, to, Part::Sinking { from }, left)
    }

    // A robot leaves from a border column, and its block with it.
    pub fn leave(&mut self, column: u16) -> Result<(), Refusal>
        ensures { Performed (scene_of self.old) (Leave column) (refusal_in result) (scene_of self.new) }
    {
        self.may_leave(column)?;
        let block = self.look(column).state.has_block();
        let left = self.settings.duration(Work::Leave, block);
        self.put(
            column,
            State::Busy {
                part: Part::Leaving { block },
                left,
            },
        );
        Ok(())
    }

    // One timestep passes; it is never refused.
    pub fn tick(&mut self)
        ensures { Performed (scene_of self.old) Tick None (scene_of self.new) }
    {
        tick_all(&mut self.columns);
        renew_marks(&self.columns, &mut self.marks);
    }
}

// One tick of each column: it goes on from its own state.
fn tick_all(columns: &mut [Column])
    ensures { columns.new ≡ tick_all columns.old }
{
    for column in columns.iter_mut() {
        column.tick();
    }
}

// Marks the columns as their states say.
fn renew_marks(columns: &[Column], marks: &mut [u8; 256])
    requires { length columns.now ≤ 256 }
    ensures { marks.new ≡ renewed_marks (length columns.now) columns.now marks.old }
{
    // By place: of what is written through `iter_mut` beside another list a proof knows nothing.
    for (at, column) in columns.iter().enumerate() {
        marks[at] = u8::from(column.state.is_changing());
    }
}
