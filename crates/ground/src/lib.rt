// Grounds of block columns: what any kind of ground means and tells.
#![tactic(auto)]

ghost use Rattle.std.specs.Prelude.{◌≡◌, ℕ, ◌≤◌, length};
ghost use Rattle.std.specs.List.{slice_get};
ghost use Rattle.ground.specs.Meaning.{Meaning, Lawful, neighbours};

mod linking;
mod listed;
mod listed_ground;
mod neighbours;
mod places;
mod row;
mod square;
mod square_ground;
#[cfg(test)]
mod tests;

pub use linking::is_linked;
pub use listed::Listed;
pub use neighbours::Neighbours;
pub use square::Square;

// The most columns of a ground, of whatever kind.
pub const MOST_COLUMNS: usize = 256;

// A kind of ground. What it means is given by ghost members, and it tells just that.
pub trait Ground {
    // The most links that a column of this kind may have, in code and in clauses.
    const MOST_LINKS: usize;

    ghost MOST_LINKS: { ℕ };

    ghost meaning: { Self → Meaning };

    // How many columns there are.
    fn columns(&self) -> u16
        ensures { result ≡ (meaning self.now).columns };

    // Whether a column is at the border; no where there is no such column.
    fn is_border(&self, column: u16) -> bool
        ensures { result ≡ (meaning self.now).border column };

    // How many columns are linked with a column; none where there is no such column.
    fn links(&self, column: u16) -> usize
        ensures { result ≡ length (neighbours (meaning self.now) column) };

    // The linked column number k in rising order, counted from 0, if there are so many.
    fn link(&self, column: u16, k: usize) -> Option<u16>
        ensures { result ≡ slice_get (neighbours (meaning self.now) column) k };

    ghost lawful: { (g : Self) → Lawful (meaning g) };

    ghost few: { (g : Self) (c : ℕ) → length (neighbours (meaning g) c) ≤ MOST_LINKS };
}
