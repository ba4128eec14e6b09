// Drawing a site onto a page.
ghost use Rattle.std.specs.Prelude.{◌≡◌, ◌+◌, ◌*◌, ◌<◌, ◌≤◌, ◌++◌, length};
ghost use Rattle.gate.specs.View.{scene_of};
ghost use Rattle.console.specs.Drawing.{cell, counts_text, drawing, mark, part_mark};

use crate::page::Page;
use draw::justified;
use gate::{Column, Part, Site, State};
use ground::Ground;

// The mark of a part in an action.
fn part_mark(part: Part) -> u8
    ensures { result ≡ part_mark part }
{
    match part {
        Part::Entering { .. } => b'+',
        Part::Leaving { .. } => b'-',
        Part::Departing { .. } => b'>',
        Part::Arriving { .. } => b'<',
        Part::Laying { .. } => b'd',
        Part::Rising { .. } => b'^',
        Part::Lifting { .. } => b'u',
        Part::Sinking { .. } => b'v',
    }
}

// The mark of a column's state.
fn mark(state: State) -> u8
    ensures { result ≡ mark state }
{
    match state {
        State::Free => b'.',
        State::Standing { block: false } => b'r',
        State::Standing { block: true } => b'b',
        State::Busy { part, .. } => part_mark(part),
    }
}

impl Page {
    // Adds the cell of a column in rows of a width.
    fn put_cell(&mut self, column: u16, here: Column, width: u16)
        requires { (0 < width) × (length self.old + 11 ≤ 24579000) }
        ensures value { self.new ≡ self.old ++ cell width column here }
        ensures bound { length self.new ≤ length self.old + 11 }
    {
        if column % width == 0 {
            self.put(b"\n");
            self.put(&justified::<6>(column.into()));
        }
        self.put(&justified::<3>(here.height.into()));
        self.put(&[mark(here.state)]);
    }

    // Adds the drawing of a site in rows of a width.
    pub(crate) fn put_drawing<G: Ground>(&mut self, site: &Site<G>, width: u16)
        requires { (0 < width) × (length self.old + 2816 ≤ 24579000) }
        ensures value { self.new ≡ self.old ++ drawing width (scene_of site.now) }
        ensures bound { length self.new ≤ length self.old + 2816 }
    {
        for column in 0..site.ground().columns() {
            self.put_cell(column, site.look(column), width);
        }
    }

    // Adds how many robots and blocks there are.
    pub(crate) fn put_counts<G: Ground>(&mut self, site: &Site<G>)
        requires { length self.old + 100 ≤ 24579000 }
        ensures value { self.new ≡ self.old ++ counts_text (scene_of site.now) }
        ensures bound { length self.new ≤ length self.old + 100 }
    {
        self.put_named(b"robots ", site.robots().into());
        self.put_named(b", blocks standing ", site.blocks_standing());
        self.put_named(b", blocks carried ", site.blocks_carried().into());
    }
}
