// Making a square ground, and what it tells.
ghost use Rattle.std.specs.Prelude.{◌≡◌, ◌≤◌, IfOk};
ghost use Rattle.terms.specs.Refusals.{Answers, Settles, refusal_in};
ghost use Rattle.ground.specs.Meaning.{neighbours};
ghost use Rattle.ground.specs.Members.{somes};
ghost use Rattle.ground.specs.Squared.{IsSquare, squared, square_refusal, square_reasons};
ghost use Rattle.ground.specs.Sides.{sides_of};
ghost use Rattle.ground.specs.View.{square_of};
ghost use Rattle.ground.specs.Lawful.{square_lawful};
ghost use Rattle.ground.specs.Beside.{sides_few};

use crate::places::{count, pick};
use crate::{Ground, Square};
use terms::{Refusal, Rule};

impl Square {
    // The square ground of x by y columns, where x and y are 1 to 16; the numbers may be any.
    pub fn new(x: u32, y: u32) -> Result<Square, Refusal>
        ensures value { Answers (square_refusal x y) (λ s. square_of s ≡ squared x y) result }
        ensures means { IfOk result (λ s. IsSquare x y (square_of s)) }
        ensures words { Settles (square_reasons x y) (refusal_in result) }
    {
        if !(1..=16).contains(&x) || !(1..=16).contains(&y) {
            return Err(Rule::SquareSize.into());
        }
        Ok(Square {
            x: x as u8,
            y: y as u8,
        })
    }

    // The columns linked with a column, where there are such, in rising order.
    fn around(&self, column: u16) -> [Option<u16>; 4]
        ensures { somes result ≡ neighbours (square_of self.now) column }
    {
        sides(u16::from(self.x), u16::from(self.y), column)
    }
}

// The columns on the four sides of a column, where there are such, in rising order.
fn sides(x: u16, y: u16, column: u16) -> [Option<u16>; 4]
    requires { (x ≤ 16) × ((1 ≤ y) × (y ≤ 16)) }
    ensures { result ≡ sides_of x y column }
{
    let columns = x * y;
    if column >= columns {
        return [None; 4];
    }
    let across = column % y;
    [
        column.checked_sub(y),
        (across > 0).then(|| column - 1),
        (across + 1 < y).then_some(column + 1),
        (column + y < columns).then_some(column + y),
    ]
}

impl Ground for Square {
    const MOST_LINKS: usize = 4;

    ghost meaning = { square_of };

    ghost MOST_LINKS = { 4 };

    ghost lawful = { λ s. square_lawful s.x s.y s.x_low s.x_high s.y_low s.y_high };

    ghost few = { λ s c. sides_few s.x s.y s.y_low c };

    fn columns(&self) -> u16 {
        u16::from(self.x) * u16::from(self.y)
    }

    fn is_border(&self, column: u16) -> bool {
        let x = u16::from(self.x);
        let y = u16::from(self.y);
        if column >= x * y {
            return false;
        }
        let i = column / y;
        let j = column % y;
        i == 0 || i + 1 == x || j == 0 || j + 1 == y
    }

    fn links(&self, column: u16) -> usize {
        count(&self.around(column))
    }

    fn link(&self, column: u16, k: usize) -> Option<u16> {
        pick(&self.around(column), k)
    }
}
