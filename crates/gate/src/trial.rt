// The trial of a lay or a lift: whether every robot keeps a way home while a column changes.
ghost use Rattle.std.specs.Prelude.{◌≡◌, ◌<◌, ◌||◌, length, is_ok, if◌then◌else◌, ◌==◌, slice_set};
ghost use Rattle.terms.specs.Refusals.{told, told_of};
ghost use Rattle.terms.specs.declared.refusal.Rule.TheVariants.{NoWayHome};
ghost use Rattle.ways.specs.View.{marked, steps_in};
ghost use Rattle.gate.specs.Scene.{lying};
ghost use Rattle.gate.specs.Gate.{stranded_by, lowest_stranded};
ghost use Rattle.gate.specs.View.{stranded_in};

use crate::column::Column;
use ground::Ground;
use terms::{Refusal, Rule};
use ways::Ways;

// The robot at a column would have no way home; it is the lowest such column.
#[derive(Clone, Copy, PartialEq, Eq, Debug)]
pub(crate) struct Stranded {
    column: u16,
}

impl From<Stranded> for Refusal {
    ghost from_gives = { λ stranded refusal. told_of refusal ≡ told NoWayHome 0 stranded.column };

    fn from(stranded: Stranded) -> Refusal {
        Refusal::at(Rule::NoWayHome, 0, stranded.column)
    }
}

// A mark that is tried: it stands while the guard lives, and what was there before comes back when the guard is let go.
// Form: a guard over the marks that it is lent, so that no way out can forget to put the mark back.
struct Trial<'a> {
    marks: &'a mut [u8],
    column: usize,
    before: u8,
}

impl Drop for Trial<'_> {
    fn drop(self)
        requires { self.column < length self.marks.now }
        ensures { self.exit.0.now ≡ slice_set self.entry.marks.now self.entry.column self.entry.before }
    {
        self.marks[self.column] = self.before;
        let Trial {
            marks: _,
            column: _,
            before: _,
        } = self;
    }
}

impl Trial<'_> {
    // Refuses where a robot has no way home with the tried mark standing.
    fn all_home<G: Ground>(&self, ground: &G, columns: &[Column]) -> Result<(), Stranded>
        ensures { stranded_in result ≡ lowest_stranded (G.Ground.meaning ground.now) columns.now (lying columns.now (marked self.now.marks.now)) }
    {
        // A `match`, since what is found is the error: `map_or(Ok(()), ..)` reads backwards.
        match lowest_stranded(ground, columns, self.marks) {
            Some(column) => Err(Stranded { column }),
            None => Ok(()),
        }
    }

    // Ends the trial, and leaves the mark standing: a grant.
    fn keep(self)
        ensures { self.exit.0.now ≡ self.entry.marks.now }
    {
        let Trial {
            marks: _,
            column: _,
            before: _,
        } = self;
    }
}

// The lowest column from which a robot has no way home, as the columns are marked.
fn lowest_stranded<G: Ground>(ground: &G, columns: &[Column], marks: &[u8]) -> Option<u16>
    ensures { result ≡ lowest_stranded (G.Ground.meaning ground.now) columns.now (lying columns.now (marked marks.now)) }
{
    let ways = Ways::search(ground, columns, marks);
    (0..ground.columns()).find(|column| is_stranded(columns, &ways, *column))
}

// Whether a robot is at a column and has no way home.
fn is_stranded(columns: &[Column], ways: &Ways, column: u16) -> bool
    ensures { result ≡ stranded_by columns.now (steps_in ways.now) column }
{
    columns.get(usize::from(column)).is_some_and(|here| here.state.has_robot()
        && ways.steps(column).is_none())
}

// Marks a column as changing, unless a robot then has no way home: the lowest column of such a robot is told, and no mark is left.
// Ground, columns and marks go apart: the guard holds the marks as its own, and lends them to the search.
pub(crate) fn try_change<G: Ground>(
    ground: &G,
    columns: &[Column],
    marks: &mut [u8],
    column: u16,
) -> Result<(), Stranded>
    requires { column < length marks.old }
    ensures answer { stranded_in result ≡ lowest_stranded (G.Ground.meaning ground.now) columns.now (lying columns.now (λ c. (c == column) || marked marks.old c)) }
    ensures marks { marks.new ≡ (if is_ok result then slice_set marks.old column 1 else marks.old) }
{
    let at = usize::from(column);
    let before = marks[at];
    marks[at] = 1;
    let trial = Trial {
        marks,
        column: at,
        before,
    };
    trial.all_home(ground, columns)?;
    trial.keep();
    Ok(())
}
