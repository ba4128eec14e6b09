// The search for ways home, by rounds over a table.
ghost use Rattle.std.specs.Prelude.{◌≡◌, ℕ};
ghost use Rattle.ways.specs.Way.{StepsHome};
ghost use Rattle.ways.specs.Table.{steps, nearer};
ghost use Rattle.ways.specs.View.{heights_by, relief_by, steps_in};

use crate::found::Ways;
use crate::links::lowest_beside;
use crate::tall::Tall;
use crate::terrain::Terrain;
use ground::Ground;

impl Ways {
    // The fewest steps home of every column, with the heights of the columns and the marks of those that are changing.
    // A mark is any byte, 0 where the column is settled: to take bools would ask more of callers.
    pub fn search<G: Ground, C: Tall>(ground: &G, columns: &[C], marks: &[u8]) -> Ways
        ensures value { (c : ℕ) → steps_in result c ≡ steps (G.Ground.meaning ground.now) (relief_by C.Tall.tallness columns.now marks.now) c }
        ensures words { (c : ℕ) → StepsHome (G.Ground.meaning ground.now) (relief_by C.Tall.tallness columns.now marks.now) c (steps_in result c) }
    {
        let terrain = Terrain {
            ground,
            columns,
            marks,
        };
        let mut steps = [None; 256];
        terrain.start(&mut steps);
        // By number: round n gives the label n + 1, and there are no more labels than columns.
        for n in 0..ground.columns() {
            if !terrain.round(&mut steps, n) {
                return Ways { steps };
            }
        }
        Ways { steps }
    }

    // The fewest steps home that were found for a column; none where it has no way.
    pub fn steps(&self, column: u16) -> Option<u16>
        ensures { result ≡ steps_in self.now column }
    {
        self.steps.get(usize::from(column)).copied().flatten()
    }

    // The lowest column beside a column that is one step nearer home.
    pub fn nearer<G: Ground, C: Tall>(&self, ground: &G, columns: &[C], column: u16) -> Option<u16>
        ensures { result ≡ nearer (G.Ground.meaning ground.now) (heights_by C.Tall.tallness columns.now) (steps_in self.now) column }
    {
        let n = self.steps(column)?.checked_sub(1)?;
        lowest_beside(ground, columns, &self.steps, column, n)
    }
}
