// What a plan comes to.
ghost use Rattle.std.specs.Prelude.{◌≡◌};
ghost use Rattle.plan.specs.Plan.{makespan};
ghost use Rattle.plan.specs.View.{plan_of};
ghost use Rattle.judge.specs.Figures.{costs_of};

use crate::actions::Actions;
use plan::Action;

// The largest end, 0 for no action.
pub(crate) fn latest_end(actions: &[Action]) -> u32
    ensures { result ≡ makespan (plan_of actions.now) }
{
    actions
        .iter()
        .map(|action| action.span.end())
        .max()
        .unwrap_or(0)
}

// The sum of the costs of all actions.
pub(crate) fn costs(actions: &Actions) -> u64
    ensures { result ≡ costs_of (plan_of actions.now.list.items) }
{
    actions
        .list
        .iter()
        .map(|action| u64::from(action.span.cost()))
        .sum()
}
