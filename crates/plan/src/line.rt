// The rules that a line has to keep by itself, and the action that it then stands for.
ghost use Rattle.std.specs.Prelude.{◌≡◌, ◌+◌, true, false, ◌&&◌, Some, None, IfOk, MatchOption, MatchResult, ◌==◌, nat_lt};
ghost use Rattle.terms.specs.Durations.{duration_of};
ghost use Rattle.terms.specs.Refusals.{Answers, first_of, told};
ghost use Rattle.terms.specs.View.{settings_of};
ghost use Rattle.plan.specs.Lines.{marked, numbered, marks_fit, written_action, joins, top, line_tests};
ghost use Rattle.plan.specs.Stands.{StandsFor};
ghost use Rattle.plan.specs.View.{action_of, start_of, end_of};
ghost use Rattle.plan.specs.Asking.{asked_of, asked_in};

use crate::asked::{Asked, Point};
use crate::{Action, Span, Spot};
use ground::{Ground, is_linked};
use sheet::{ActLine, Letter, Place, Side};
use terms::{Refusal, Rule, Settings, Work};

// Whether a field holds a mark in place of a number.
fn is_mark(place: Place) -> bool
    ensures { result ≡ marked place }
{
    matches!(place, Place::Outside)
}

// The number in a field, 0 for a mark.
fn number_in(place: Place) -> u32
    ensures { result ≡ numbered place }
{
    match place {
        Place::Outside => 0,
        Place::At(number) => number,
    }
}

// Whether the marks of a line fill both fields of their side, stand on one side at most, and suit its letter and its carry.
fn is_well_marked(line: &ActLine) -> bool
    ensures { result ≡ marks_fit line.now }
{
    let enters = is_mark(line.from.column);
    let leaves = is_mark(line.to.column);
    let suits = match line.letter {
        Letter::M => !(enters && leaves),
        Letter::P => !enters && !leaves && !line.carry,
        Letter::D => !enters && !leaves && line.carry,
    };
    suits && enters == is_mark(line.from.height) && leaves == is_mark(line.to.height)
}

// The point that is written on a side.
impl From<Side> for Point {
    ghost from_gives = { λ side point. (point.column ≡ numbered side.column) × (point.height ≡ numbered side.height) };

    fn from(side: Side) -> Point {
        Point {
            column: number_in(side.column),
            height: number_in(side.height),
        }
    }
}

// What a line asks for.
fn asked(line: &ActLine) -> Asked
    ensures { asked_of result ≡ asked_in (written_action line.now) }
{
    let from = Point::from(line.from);
    let to = Point::from(line.to);
    let enters = is_mark(line.from.column);
    let leaves = is_mark(line.to.column);
    let work = match line.letter {
        Letter::M if enters => Work::Entry,
        Letter::M if leaves => Work::Leave,
        Letter::M if from == to => Work::Wait,
        Letter::M => Work::Move,
        Letter::P => Work::PickUp,
        Letter::D => Work::Deliver,
    };
    Asked {
        work,
        from: if enters { to } else { from },
        to: if leaves { from } else { to },
    }
}

// Where a plan is carried out.
#[derive(Drop)]
struct Hall<'a, G: Ground> {
    ground: &'a G,
    settings: &'a Settings,
}

impl<'a, G: Ground> Hall<'a, G> {
    // The spot at a point, where its column is on the ground and comes no higher than the highest height.
    fn spot(&self, work: Work, point: Point) -> Option<Spot>
        ensures { let fits = nat_lt point.column (G.Ground.meaning self.now.ground.now).columns && nat_lt (top work point.height) (settings_of self.now.settings.now).levels in MatchOption result (fits ≡ false) (λ s. (fits ≡ true) × (s.column ≡ point.column) × (s.height ≡ point.height)) }
    {
        let top = match work {
            Work::PickUp | Work::Deliver => point.height.saturating_add(1),
            _ => point.height,
        };
        let on_ground = point.column < u32::from(self.ground.columns());
        if !on_ground || top >= u32::from(self.settings.levels()) {
            return None;
        }
        Some(Spot {
            column: point.column as u16,
            height: point.height as u8,
        })
    }

    // Whether the work can be done from a column to another: at the border, along a link, not to a border column.
    fn is_joined(&self, work: Work, from: u16, to: u16) -> bool
        ensures { result ≡ joins (G.Ground.meaning self.now.ground.now) work from to }
    {
        match work {
            Work::Entry | Work::Leave => self.ground.is_border(from),
            Work::Wait => true,
            Work::Move => is_linked(self.ground, from, to),
            Work::PickUp | Work::Deliver => {
                is_linked(self.ground, from, to) && !self.ground.is_border(to)
            }
        }
    }

    // The span of a line, where it is as long as the work takes.
    fn lasting(&self, work: Work, line: &ActLine) -> Option<Span>
        ensures { let lasts = line.now.end == line.now.start + duration_of (settings_of self.now.settings.now).times work line.now.carry in MatchOption result (lasts ≡ false) (λ x. (lasts ≡ true) × (start_of x ≡ line.now.start) × (end_of x ≡ line.now.end)) }
    {
        let duration = u32::from(self.settings.duration(work, line.carry));
        Span::new(line.start, line.end).filter(|span| span.cost() == duration)
    }

    // The action that a line stands for there, or the first rule that it breaks by itself.
    fn read_action(&self, line: &ActLine) -> Result<Action, Rule>
        ensures { let first = first_of (line_tests (G.Ground.meaning self.now.ground.now) (settings_of self.now.settings.now) line.now) in MatchResult result (λ a. (first ≡ None) × (action_of a ≡ written_action line.now)) (λ rule. first ≡ Some (told rule line.now.line 0)) }
    {
        if !is_well_marked(line) {
            return Err(Rule::MarksMixed);
        }
        let Asked { work, from, to } = asked(line);
        let from = self.spot(work, from).ok_or(Rule::OffScale)?;
        let to = self.spot(work, to).ok_or(Rule::OffScale)?;
        if !self.is_joined(work, from.column, to.column) {
            return Err(Rule::NotConnected);
        }
        let span = self.lasting(work, line).ok_or(Rule::WrongDuration)?;
        Ok(Action {
            line: line.line,
            work,
            from,
            to,
            carry: line.carry,
            span,
        })
    }
}

// The action that a line stands for, or the first rule that the line breaks by itself.
pub fn action_of<G: Ground>(
    ground: &G,
    settings: &Settings,
    line: &ActLine,
) -> Result<Action, Refusal>
    ensures value { Answers (first_of (line_tests (G.Ground.meaning ground.now) (settings_of settings.now) line.now)) (λ a. action_of a ≡ written_action line.now) result }
    ensures stands { IfOk result (λ a. StandsFor line.now (action_of a)) }
{
    let read = Hall { ground, settings }.read_action(line);
    read.map_err(|rule| Refusal::at(rule, line.line, 0))
}
