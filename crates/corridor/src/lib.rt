// A ground kind of one's own, as a model to copy: a corridor.
#![tactic(auto)]

ghost use Rattle.std.specs.Prelude.{◌≡◌, ℕ, ◌≤◌, [], length};
ghost use Rattle.terms.specs.Refusals.{Answers, Settles, refusal_in};
ghost use Rattle.ground.specs.Meaning.{Lawful, neighbours};
ghost use Rattle.ground.specs.Members.{onto};
ghost use Rattle.corridor.specs.Row.{in_a_row, row_refusal, row_reasons};

#[cfg(test)]
mod tests;

use ground::{Ground, MOST_COLUMNS};
use terms::{Refusal, Rule};

// Columns in a row, each linked with the next; the two ends are border. The laws of a ground are proved where one is made.
#[derive(Clone, Copy)]
pub struct Corridor {
    columns: u16,
    ghost lawful: { Lawful (in_a_row columns) },
    ghost few: { (c : ℕ) → length (neighbours (in_a_row columns) c) ≤ 2 },
}

impl Corridor {
    // The corridor of so many columns, 1 to 256; the number may be any.
    pub fn new(columns: u16) -> Result<Corridor, Refusal>
        ensures value { Answers (row_refusal columns) (λ c. in_a_row c.columns ≡ in_a_row columns) result }
        ensures words { Settles (row_reasons columns) (refusal_in result) }
    {
        if !(1..=MOST_COLUMNS).contains(&usize::from(columns)) {
            return Err(Rule::BorderList.into());
        }
        Ok(Corridor { columns })
    }

    // The column before a column and the one behind it, where there are such.
    fn beside(&self, column: u16) -> (Option<u16>, Option<u16>)
        ensures { onto result.0 (onto result.1 []) ≡ neighbours (in_a_row self.now.columns) column }
    {
        if column >= self.columns {
            return (None, None);
        }
        let behind = column + 1;
        (
            column.checked_sub(1),
            (behind < self.columns).then_some(behind),
        )
    }
}

impl Ground for Corridor {
    const MOST_LINKS: usize = 2;

    ghost MOST_LINKS = { 2 };

    ghost meaning = { λ c. in_a_row c.columns };

    ghost lawful = { λ c. c.lawful };

    ghost few = { λ c. c.few };

    fn columns(&self) -> u16 {
        self.columns
    }

    fn is_border(&self, column: u16) -> bool {
        column < self.columns && (column == 0 || column + 1 == self.columns)
    }

    fn links(&self, column: u16) -> usize {
        let (before, behind) = self.beside(column);
        usize::from(before.is_some()) + usize::from(behind.is_some())
    }

    fn link(&self, column: u16, k: usize) -> Option<u16> {
        let (before, behind) = self.beside(column);
        match k {
            0 => before.or(behind),
            1 => before.and(behind),
            _ => None,
        }
    }
}
