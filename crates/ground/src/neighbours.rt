// The columns linked with a column, one after the other in rising order.
ghost use Rattle.std.specs.Prelude.{◌≡◌, ◌-◌};
ghost use Rattle.std.specs.Iterator.{YieldsFirst, at_most};
ghost use Rattle.ground.specs.Meaning.{neighbours};
ghost use Rattle.ground.specs.Walk.{still_linked};

use crate::Ground;

// It counts by hand: the type of `(0..).map_while(..)` has no name, so no function can give it.
#[derive(Drop)]
pub struct Neighbours<'a, G: Ground> {
    pub(crate) ground: &'a G,
    pub(crate) column: u16,
    pub(crate) next: usize,
}

impl<'a, G: Ground> Neighbours<'a, G> {
    // The columns linked with a column; none where there is no such column.
    pub fn of(ground: &'a G, column: u16) -> Neighbours<'a, G>
        ensures { still_linked G.Ground.meaning result ≡ neighbours (G.Ground.meaning ground.now) column }
    {
        Neighbours {
            ground,
            column,
            next: 0,
        }
    }
}

impl<'a, G: Ground> Iterator for Neighbours<'a, G> {
    type Item = u16;

    ghost next_gives = { YieldsFirst (still_linked G.Ground.meaning) };

    ghost remaining = { λ walk. at_most (G.Ground.MOST_LINKS - walk.next) };

    // Form: the most links of the kind bound the walk, and every walk along links goes through this one.
    fn next(&mut self) -> Option<u16> {
        if self.next >= G::MOST_LINKS {
            return None;
        }
        let linked = self.ground.link(self.column, self.next)?;
        self.next += 1;
        Some(linked)
    }
}
