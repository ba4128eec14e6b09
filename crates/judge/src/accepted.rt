// An accepted plan, with its targets and its figures. Only judging makes one, and it can be used up only once.
use plan::Action;
use sheet::Target;
use std::marker::Model;

#[derive(Drop)]
pub struct Accepted {
    pub(crate) actions: Vec<Action>,
    pub(crate) targets: Vec<Target>,
    pub(crate) makespan: u32,
    pub(crate) costs: u64,
    pub(crate) most: usize,
}

// A clause sees what is accepted: the plan, its targets and its figures.
impl Model for Accepted {
    ghost use Rattle.std.specs.Prelude.{vec_items};
    ghost use Rattle.plan.specs.View.{plan_of};
    ghost use Rattle.judge.specs.View.{Acceptance};

    ghost Value = { Acceptance };

    ghost view = { λ a. record { plan = plan_of (vec_items a.actions); targets = vec_items a.targets; makespan = a.makespan; costs = a.costs; most = a.most } };
}
