// What the actions above a line come to.
ghost use Rattle.std.specs.Prelude.{◌≡◌, ◌<◌, ◌≤◌, count_by};
ghost use Rattle.plan.specs.Plan.{carried, delivers, height_at, picks, runs};
ghost use Rattle.plan.specs.View.{action_of, plan_of};
ghost use Rattle.judge.specs.Judging.{latest_start, left_behind};

use crate::actions::Actions;
use plan::Action;
use terms::Work;

// When the last action starts, 0 where there is none.
pub(crate) fn latest_start(actions: &[Action]) -> u32
    ensures { result ≡ latest_start (plan_of actions.now) }
{
    actions.last().map_or(0, |action| action.span.start())
}

// Whether an action starts at a time from a column.
pub(crate) fn is_carried_on(actions: &[Action], time: u32, column: u16) -> bool
    ensures { result ≡ carried (plan_of actions.now) time column }
{
    actions.iter().any(|action| action.starts(time, column))
}

// Whether the robot of an action, no leave, does nothing after it.
pub(crate) fn is_left_behind(actions: &[Action], action: &Action) -> bool
    ensures { result ≡ left_behind (plan_of actions.now) (action_of action.now) }
{
    action.work != Work::Leave && !is_carried_on(actions, action.span.end(), action.end_column())
}

// How many actions run at a time.
pub(crate) fn running_at(actions: &[Action], time: u32) -> usize
    ensures { result ≡ count_by (runs time) (plan_of actions.now) }
{
    actions
        .iter()
        .filter(|action| action.span.holds(time))
        .count()
}

// How many blocks were delivered to a column by a time.
fn delivered_by(actions: &[Action], time: u32, column: u16) -> usize
    ensures { result ≡ count_by (delivers time column) (plan_of actions.now) }
{
    actions
        .iter()
        .filter(|action| action.delivers(time, column))
        .count()
}

// How many blocks were picked up from a column by a time.
fn picked_by(actions: &[Action], time: u32, column: u16) -> usize
    ensures { result ≡ count_by (picks time column) (plan_of actions.now) }
{
    actions
        .iter()
        .filter(|action| action.picks(time, column))
        .count()
}

// The height of a column at a time no earlier than the last start: blocks delivered less blocks picked up by then.
pub(crate) fn height_at(actions: &Actions, time: u32, column: u16) -> usize
    requires column { column < 256 }
    requires time { latest_start (plan_of actions.now.list.items) ≤ time }
    ensures { result ≡ height_at (plan_of actions.now.list.items) time column }
{
    let (recent, at) = (actions.recent(), usize::from(column));
    let delivered = delivered_by(recent, time, column);
    let picked = picked_by(recent, time, column);
    let delivered = usize::from(actions.past.delivered[at]) + delivered;
    delivered.saturating_sub(usize::from(actions.past.picked[at]) + picked)
}
