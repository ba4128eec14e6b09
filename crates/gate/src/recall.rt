// Recall: which robot goes home next, and how.
ghost use Rattle.std.specs.Prelude.{◌≡◌, ◌≤◌};
ghost use Rattle.ways.specs.View.{steps_in};
ghost use Rattle.gate.specs.Recall.{robot_steps, best_below, cost_of, toll, next_by, any_runs, recall, recall_of, Homeward, Recalled};
ghost use Rattle.gate.specs.View.{scene_of};

use crate::order::{Next, Order};
use crate::site::Site;
use ground::Ground;
use terms::{Refusal, Rule};
use ways::Ways;

impl<G: Ground> Site<G> {
    // Whether an action runs.
    pub(crate) fn any_runs(&self) -> bool
        ensures { result ≡ any_runs (scene_of self.now).meaning (scene_of self.now).columns }
    {
        self.columns.iter().any(|here| here.state.runs())
    }

    // The steps home of the robot at a column, if one is there and has a way.
    fn robot_steps(&self, ways: &Ways, column: u16) -> Option<u16>
        ensures { result ≡ robot_steps (scene_of self.now).columns (steps_in ways.now) column }
    {
        if self.look(column).state.has_robot() {
            ways.steps(column)
        } else {
            None
        }
    }

    // The column of the robot with the fewest steps home, the lowest where several have as many, and these steps.
    fn nearest(&self, ways: &Ways) -> Option<(u16, u16)>
        ensures { result ≡ best_below (robot_steps (scene_of self.now).columns (steps_in ways.now)) (scene_of self.now).meaning.columns }
    {
        (0..self.floor.columns())
            .filter_map(|column| self.robot_steps(ways, column).map(|steps| (column, steps)))
            .min_by_key(|(_, steps)| *steps)
    }

    // How many actions the robots have still to do: each its steps home, and the leave.
    fn toll(&self, ways: &Ways) -> u32
        ensures { result ≡ toll (scene_of self.now).meaning (scene_of self.now).columns (steps_in ways.now) }
    {
        (0..self.floor.columns())
            .map(|column| cost(self.robot_steps(ways, column)))
            .sum()
    }

    // What the robot at a column does next, so many steps from home.
    fn next(&self, ways: &Ways, column: u16, steps: u16) -> Next
        ensures { result ≡ next_by (scene_of self.now).meaning (scene_of self.now).columns (steps_in ways.now) column steps }
    {
        if steps == 0 {
            return Next::Leaves;
        }
        let to = ways.nearer(&self.floor, &self.columns, column).unwrap_or(0);
        Next::Moves { to }
    }

    // The next action on the way to an empty site. It starts nothing.
    pub fn recall(&self) -> Result<Order, Refusal>
        ensures value { recall_of result ≡ recall (scene_of self.now) }
        ensures words { Homeward (scene_of self.now) → Recalled (scene_of self.now) (recall_of result) }
    {
        if self.any_runs() {
            return Err(Rule::ActionRuns.into());
        }
        let ways = Ways::search(&self.floor, &self.columns, &self.marks);
        let (column, steps) = self.nearest(&ways).ok_or(Rule::NoRobot)?;
        let next = self.next(&ways, column, steps);
        Ok(Order {
            column,
            next,
            left: self.toll(&ways),
        })
    }
}

// The actions that a robot has still to do, so many steps from home.
fn cost(steps: Option<u16>) -> u32
    ensures value { result ≡ cost_of steps }
    ensures small { result ≤ 65536 }
{
    steps.map_or(0, |n| u32::from(n) + 1)
}
