// The rules of a plan at the sheet's end.
ghost use Rattle.std.specs.Prelude.{◌≡◌, ℕ, ◌<◌, ◌≤◌, [], ◌∷◌};
ghost use Rattle.std.specs.Option.{option_map};
ghost use Rattle.terms.specs.Refusals.{first_of, from_on, told};
ghost use Rattle.terms.specs.declared.refusal.Rule.TheVariants.{TargetMissed};
ghost use Rattle.ground.specs.Meaning.{Meaning};
ghost use Rattle.plan.specs.Rules.{target_of};
ghost use Rattle.plan.specs.View.{plan_of};
ghost use Rattle.judge.specs.Finding.{Settled, find, line_in};
ghost use Rattle.judge.specs.Judging.{latest_start, left_behind, missed};

use crate::above::{height_at, is_left_behind, latest_start};
use crate::actions::Actions;
use sheet::Target;

// The line of the first action whose robot is left behind.
// Where no line is refused, the actions that ended before the last start are carried on already.
pub(crate) fn first_left_behind(actions: &Actions) -> Option<u16>
    ensures { (m : Meaning) → Settled m (plan_of actions.now.list.items) → result ≡ line_in (find (left_behind (plan_of actions.now.list.items)) (plan_of actions.now.list.items)) }
{
    let recent = actions.recent();
    let since = latest_start(actions.list.as_slice());
    recent
        .iter()
        .find(|action| action.span.end() >= since && is_left_behind(recent, action))
        .map(|action| action.line)
}

// The target of a column, 0 where none is named.
// By `find`: that targets rise is known of a sheet that was read, and not of any list of them.
fn target_of(targets: &[Target], column: u16) -> u8
    ensures { result ≡ target_of targets.now column }
{
    targets
        .iter()
        .find(|target| target.column == column)
        .map_or(0, |target| target.height)
}

// Whether the height of a column at a time is not its target.
fn is_missed(actions: &Actions, targets: &[Target], time: u32, column: u16) -> bool
    requires column { column < 256 }
    requires time { latest_start (plan_of actions.now.list.items) ≤ time }
    ensures { result ≡ missed (plan_of actions.now.list.items) (target_of targets.now) time column }
{
    height_at(actions, time, column) != usize::from(target_of(targets, column))
}

// The lowest column whose height at a time is not its target.
pub(crate) fn first_missed(
    columns: u16,
    actions: &Actions,
    targets: &[Target],
    time: u32,
) -> Option<u16>
    requires columns { columns ≤ 256 }
    requires time { latest_start (plan_of actions.now.list.items) ≤ time }
    ensures { (lines : ℕ) → first_of (from_on (λ c. (missed (plan_of actions.now.list.items) (target_of targets.now) time c, told TargetMissed lines c) ∷ []) 0 columns) ≡ option_map (told TargetMissed lines) result }
{
    (0..columns).find(|column| is_missed(actions, targets, time, *column))
}
