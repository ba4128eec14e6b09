// What an accepted plan says.
ghost use Rattle.std.specs.Prelude.{◌≡◌};
ghost use Rattle.plan.specs.View.{plan_of};

use crate::Accepted;
use plan::Action;
use sheet::Target;

impl Accepted {
    // The actions in order.
    pub fn actions(&self) -> &[Action]
        ensures { plan_of result.now ≡ self.now.plan }
    {
        self.actions.as_slice()
    }

    // The targets that are named, in rising order of their columns.
    pub fn targets(&self) -> &[Target]
        ensures { result.now ≡ self.now.targets }
    {
        self.targets.as_slice()
    }

    // The largest end, 0 for no action.
    pub fn makespan(&self) -> u32
        ensures { result ≡ self.now.makespan }
    {
        self.makespan
    }

    // The sum of the costs of all actions.
    pub fn costs(&self) -> u64
        ensures { result ≡ self.now.costs }
    {
        self.costs
    }

    // The most robots at once.
    pub fn most(&self) -> usize
        ensures { result ≡ self.now.most }
    {
        self.most
    }
}
