// Making a listed ground, and what it tells.
ghost use Rattle.std.specs.Prelude.{◌≡◌, ◌<◌, ◌≤◌, [], length, slice_index_or, IfOk, MatchOption};
ghost use Rattle.std.specs.List.{flat_map};
ghost use Rattle.terms.specs.Refusals.{Answers, Settles, refusal_in};
ghost use Rattle.ground.specs.Listing.{Inside, IsListed, Crowded, ascends, border_fits, listed, listing_refusal, listing_reasons};
ghost use Rattle.ground.specs.Meaning.{Same};
ghost use Rattle.ground.specs.Table.{Filled, no_row, other};
ghost use Rattle.ground.specs.View.{listed_of};
ghost use Rattle.ground.specs.Lawful.{listed_few};

use crate::places::count;
use crate::row::Row;
use crate::{Ground, Listed};
use std::array;
use terms::{Refusal, Rule};

// Whether there are 1 to 256 columns, and a byte of 0 or 1 for each.
fn is_border_list(columns: u16, border: &[u8]) -> bool
    ensures { result ≡ border_fits columns border.now }
{
    (1..=256).contains(&columns)
        && border.len() == usize::from(columns)
        && border.iter().all(|byte| *byte <= 1)
}

// Whether each link goes from a lower column to a higher one of the ground, and is above the one before it.
// A `for` with the link before: `is_sorted_by` for their order and `all` for their ends are no plainer, two tests for one.
fn is_link_list(columns: u16, links: &[(u16, u16)]) -> bool
    ensures { result ≡ ascends columns (0, 0) links.now }
{
    let mut before = (0, 0);
    for link in links {
        let (lower, higher) = *link;
        if *link <= before || lower >= higher || higher >= columns {
            return false;
        }
        before = *link;
    }
    true
}

// Rows with the border of a border list, and no links.
fn bordered(border: &[u8]) -> [Row; 256]
    requires { length border.now ≤ 256 }
    ensures { Filled border.now (λ _. []) result }
{
    array::from_fn(|column| Row {
        border: border.get(column) == Some(&1),
        to: [None; 6],
    })
}

// Rows with a border and links, unless a column would have a seventh link.
fn filled(border: &[u8], links: &[(u16, u16)]) -> Option<[Row; 256]>
    requires { (length border.now ≤ 256) × (Inside 256 links.now) }
    ensures { MatchOption result (Crowded 256 links.now) (λ rows. Filled border.now (λ c. flat_map (other c) links.now) rows) }
{
    let mut rows = bordered(border);
    for link in links {
        let (lower, higher) = *link;
        // Widened by `as`: the proof speaks of the link's own numbers, and not of what two calls of `from` give.
        rows[lower as usize] = rows[lower as usize].with_link(higher)?;
        rows[higher as usize] = rows[higher as usize].with_link(lower)?;
    }
    Some(rows)
}

impl Listed {
    // The ground of a border list, a byte for each column, and of links, each by its lower and its higher column.
    // Bytes, and not bools: one that is neither 0 nor 1 is refused, and to take bools would ask more of callers.
    pub fn new(columns: u16, border: &[u8], links: &[(u16, u16)]) -> Result<Listed, Refusal>
        ensures value { Answers (listing_refusal columns border.now links.now) (λ l. Same (listed_of l) (listed columns border.now links.now)) result }
        ensures words { Settles (listing_reasons columns border.now links.now) (refusal_in result) }
        ensures means { IfOk result (λ l. IsListed columns border.now links.now (listed_of l)) }
    {
        if !is_border_list(columns, border) {
            return Err(Rule::BorderList.into());
        }
        if !is_link_list(columns, links) {
            return Err(Rule::LinkOrder.into());
        }
        let rows = filled(border, links).ok_or(Rule::SeventhLink)?;
        Ok(Listed { columns, rows })
    }

    // The row of a column, if there is such a column.
    fn row(&self, column: u16) -> Option<&Row>
        ensures { MatchOption result (self.now.columns ≤ column) (λ row. (column < self.now.columns) × (row.now ≡ slice_index_or self.now.rows column no_row)) }
    {
        if column >= self.columns {
            return None;
        }
        self.rows.get(usize::from(column))
    }
}

impl Ground for Listed {
    const MOST_LINKS: usize = 6;

    ghost meaning = { listed_of };

    ghost MOST_LINKS = { 6 };

    ghost lawful = { λ g. g.lawful };

    ghost few = { λ g. listed_few g.columns g.rows g.rows_wide g.rows_tell };

    fn columns(&self) -> u16 {
        self.columns
    }

    fn is_border(&self, column: u16) -> bool {
        self.row(column).is_some_and(|row| row.border)
    }

    fn links(&self, column: u16) -> usize {
        self.row(column).map_or(0, |row| count(&row.to))
    }

    fn link(&self, column: u16, k: usize) -> Option<u16> {
        self.row(column)?.to.get(k).copied().flatten()
    }
}
