// The rules of an action against the actions above it.
ghost use Rattle.std.specs.Prelude.{◌≡◌, false, ◌<◌, nat_lt};
ghost use Rattle.terms.specs.Refusals.{Answers, first_of, or_else, refusal_in};
ghost use Rattle.terms.specs.View.{settings_of};
ghost use Rattle.ground.specs.Meaning.{Meaning};
ghost use Rattle.plan.specs.Lines.{written_action, line_tests};
ghost use Rattle.plan.specs.View.{action_of, plan_of};
ghost use Rattle.judge.specs.Judging.{latest_start, falls, fits, heights_fit, collide, goes_on_from, from_somewhere, crowd, judge_tests};
ghost use Rattle.judge.specs.Finding.{find, Lowest, left_between, line_in, Settled};

use crate::above::{height_at, is_left_behind, latest_start, running_at};
use crate::actions::Actions;
use ground::Ground;
use plan::{Action, action_of};
use sheet::ActLine;
use terms::{Refusal, Rule, Settings, Work};

// Whether an action, no leave, ended in some stretch of time and is not carried on.
fn is_left(above: &[Action], action: &Action, since: u32, until: u32) -> bool
    ensures { result ≡ left_between (plan_of above.now) since until (action_of action.now) }
{
    (since..until).contains(&action.span.end()) && is_left_behind(above, action)
}

// Whether the heights written for an action are right, between columns of some heights.
fn is_fitting(action: &Action, from_column: usize, to_column: usize) -> bool
    ensures { result ≡ fits action.now.work action.now.from.height action.now.to.height from_column to_column }
{
    let from = usize::from(action.from.height);
    let to = usize::from(action.to.height);
    match action.work {
        Work::Entry => to == to_column,
        Work::Leave => from == from_column,
        Work::Wait => from == from_column && to == to_column,
        Work::Move => from == from_column && to == to_column && from.abs_diff(to) <= 1,
        Work::PickUp => from == from_column && to + 1 == to_column && from == to,
        Work::Deliver => from == from_column && to == to_column && from == to,
    }
}

// Whether two actions share a timestep and a column.
fn is_colliding(one: &Action, other: &Action) -> bool
    ensures { result ≡ collide (action_of one.now) (action_of other.now) }
{
    one.span.overlaps(&other.span) && one.shares(other)
}

// Whether an action goes on where and when another ended, with the same carry.
fn is_going_on(action: &Action, other: &Action) -> bool
    ensures { result ≡ goes_on_from (action_of action.now) (action_of other.now) }
{
    other.ends(action.span.start(), action.from.column) && other.carry_after() == action.carry
}

// An action, and the actions above it.
#[derive(Clone, Copy)]
struct Placed<'a> {
    above: &'a Actions,
    action: &'a Action,
}

impl Placed<'_> {
    // Whether it starts below the action before it.
    fn is_falling(&self) -> bool
        ensures { result ≡ falls (plan_of self.now.above.now.list.items) (action_of self.now.action.now) }
    {
        self.action.span.start() < latest_start(self.above.list.as_slice())
    }

    // The lowest column at which a robot was left standing since the action before it started.
    fn left_standing(&self) -> Option<u16>
        ensures { Lowest (left_between (plan_of self.now.above.now.list.items) (latest_start (plan_of self.now.above.now.list.items)) (action_of self.now.action.now).start) (plan_of self.now.above.now.list.items) result }
    {
        let since = latest_start(self.above.list.as_slice());
        let until = self.action.span.start();
        let recent = self.above.recent();
        recent
            .iter()
            .filter(|other| is_left(recent, other, since, until))
            .map(|other| other.end_column())
            .min()
    }

    // Whether the heights written for it are right.
    fn is_level(&self) -> bool
        requires from { self.now.action.now.from.column < 256 }
        requires to { self.now.action.now.to.column < 256 }
        requires in_order { falls (plan_of self.now.above.now.list.items) (action_of self.now.action.now) ≡ false }
        ensures { result ≡ heights_fit (plan_of self.now.above.now.list.items) (action_of self.now.action.now) }
    {
        let start = self.action.span.start();
        let from = height_at(self.above, start, self.action.from.column);
        let to = height_at(self.above, start, self.action.to.column);
        is_fitting(self.action, from, to)
    }

    // The line of the first action above that collides with it.
    fn first_collision(&self) -> Option<u16>
        requires { falls (plan_of self.now.above.now.list.items) (action_of self.now.action.now) ≡ false }
        ensures { result ≡ line_in (find (λ b. collide b (action_of self.now.action.now)) (plan_of self.now.above.now.list.items)) }
    {
        self.above
            .recent()
            .iter()
            .find(|other| is_colliding(other, self.action))
            .map(|other| other.line)
    }

    // Whether it is an entry or goes on where some action above ended.
    fn is_from_somewhere(&self) -> bool
        requires { falls (plan_of self.now.above.now.list.items) (action_of self.now.action.now) ≡ false }
        ensures { result ≡ from_somewhere (plan_of self.now.above.now.list.items) (action_of self.now.action.now) }
    {
        self.action.work == Work::Entry
            || self
                .above
                .recent()
                .iter()
                .any(|other| is_going_on(self.action, other))
    }

    // Whether more spans than there may be robots hold its start, its own among them.
    fn is_crowded(&self, settings: &Settings) -> bool
        requires { falls (plan_of self.now.above.now.list.items) (action_of self.now.action.now) ≡ false }
        ensures { result ≡ nat_lt (settings_of settings.now).robots (crowd (plan_of self.now.above.now.list.items) (action_of self.now.action.now)) }
    {
        running_at(self.above.recent(), self.action.span.start()) >= usize::from(settings.robots())
    }

    // Refuses it by the first rule that it breaks, if it breaks one.
    fn check(&self, settings: &Settings) -> Result<(), Refusal>
        requires from { self.now.action.now.from.column < 256 }
        requires to { self.now.action.now.to.column < 256 }
        ensures { (m : Meaning) → Settled m (plan_of self.now.above.now.list.items) → refusal_in result ≡ first_of (judge_tests m (settings_of settings.now) (plan_of self.now.above.now.list.items) (action_of self.now.action.now)) }
    {
        let line = self.action.line;
        if self.is_falling() {
            return Err(Refusal::at(Rule::StartFalls, line, 0));
        }
        if let Some(column) = self.left_standing() {
            return Err(Refusal::at(Rule::LeftStanding, line, column));
        }
        if !self.is_level() {
            return Err(Refusal::at(Rule::WrongHeightsWritten, line, 0));
        }
        if let Some(other) = self.first_collision() {
            return Err(Refusal::at(Rule::SpansCollide, line, other));
        }
        if !self.is_from_somewhere() {
            return Err(Refusal::at(Rule::FromNowhere, line, 0));
        }
        if self.is_crowded(settings) {
            return Err(Refusal::at(Rule::TooManySpans, line, 0));
        }
        Ok(())
    }
}

// The action that a line stands for below the actions above it, or the first rule that it breaks.
// Ground and settings come apart, as the public `judge` is given them.
pub(crate) fn judge_line<G: Ground>(
    ground: &G,
    settings: &Settings,
    above: &Actions,
    line: &ActLine,
) -> Result<Action, Refusal>
    ensures { Settled (G.Ground.meaning ground.now) (plan_of above.now.list.items) → Answers (or_else (first_of (line_tests (G.Ground.meaning ground.now) (settings_of settings.now) line.now)) (first_of (judge_tests (G.Ground.meaning ground.now) (settings_of settings.now) (plan_of above.now.list.items) (written_action line.now)))) (λ a. action_of a ≡ written_action line.now) result }
{
    let action = action_of(ground, settings, line)?;
    let placed = Placed {
        above,
        action: &action,
    };
    placed.check(settings)?;
    Ok(action)
}
