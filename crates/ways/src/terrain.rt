// The lie of the ground, and the rounds of a search over it.
ghost use Rattle.std.specs.Prelude.{◌≡◌, ℕ, ◌<◌, false, None};
ghost use Rattle.ways.specs.Table.{Relabelled, label, gains, first_label, next_label};
ghost use Rattle.ways.specs.View.{marked, relief_of};

use crate::links::lowest_beside;
use crate::tall::{Tall, is_settled};
use ground::Ground;

// A ground with the heights of its columns and the marks of those that are changing.
#[derive(Drop)]
pub(crate) struct Terrain<'a, G: Ground, C: Tall> {
    pub(crate) ground: &'a G,
    pub(crate) columns: &'a [C],
    pub(crate) marks: &'a [u8],
}

impl<G: Ground, C: Tall> Terrain<'_, G, C> {
    // The first label of a column: 0 where it is a settled border column.
    fn first(&self, column: u16) -> Option<u16>
        ensures { result ≡ first_label (G.Ground.meaning self.now.ground.now) (marked self.now.marks.now) column }
    {
        (self.ground.is_border(column) && is_settled(self.marks, column)).then_some(0)
    }

    // Gives every column its first label, in a table without labels: none past the last column of the ground.
    pub(crate) fn start(&self, steps: &mut [Option<u16>; 256])
        requires { (c : ℕ) → label steps.old c ≡ None }
        ensures { (c : ℕ) → label steps.new c ≡ first_label (G.Ground.meaning self.now.ground.now) (marked self.now.marks.now) c }
    {
        // By number, widened by `as`, and in place, as a round is.
        for column in 0..self.ground.columns() {
            steps[column as usize] = self.first(column);
        }
    }

    // Whether a settled column without a label is beside one that is labelled n.
    fn gains(&self, steps: &[Option<u16>; 256], n: u16, column: u16) -> bool
        requires { column < 256 }
        ensures { result ≡ gains (G.Ground.meaning self.now.ground.now) (relief_of C.Tall.tallness self.now) (label steps.now) n column }
    {
        steps[usize::from(column)].is_none()
            && is_settled(self.marks, column)
            && lowest_beside(self.ground, self.columns, steps, column, n).is_some()
    }

    // One round: each column beside one that is labelled n is labelled n + 1, unless it has a label. Tells whether any was.
    pub(crate) fn round(&self, steps: &mut [Option<u16>; 256], n: u16) -> bool
        requires { n < 256 }
        ensures labels { Relabelled (next_label (G.Ground.meaning self.now.ground.now) (relief_of C.Tall.tallness self.now) (label steps.old) n) (label steps.old) steps.new (G.Ground.meaning self.now.ground.now).columns }
        ensures still { result ≡ false → steps.new ≡ steps.old }
    {
        let mut grown = false;
        // By number, widened by `as`, and in place: a turn reads the labels of other columns while it writes its own.
        for column in 0..self.ground.columns() {
            if self.gains(steps, n, column) {
                steps[column as usize] = Some(n + 1);
                grown = true;
            }
        }
        grown
    }
}
