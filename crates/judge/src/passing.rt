// Taking actions in, one after another.
ghost use Rattle.std.specs.Prelude.{◌≡◌, ◌+◌, false, ◌<◌, ◌≤◌, [], ◌∷◌, ◌++◌, length, drop, replicate, slice_index_or, if◌then◌else◌};
ghost use Rattle.plan.specs.Plan.{delivers, is_deliver, is_pick_up, picks};
ghost use Rattle.plan.specs.View.{action_of, plan_of};
ghost use Rattle.judge.specs.Finding.{Passed, Tally, raised};
ghost use Rattle.judge.specs.Judging.{falls};

use crate::above::running_at;
use crate::actions::{Actions, Past};
use crate::room::MOST_ACTIONS;
use plan::Action;
use terms::{Reserve, Work};

// One more at a column.
fn raise(counts: &mut [u16; 256], column: u16)
    requires { slice_index_or counts.now column 0 < 65535 }
    ensures { counts.new ≡ raised counts.old column }
{
    let at = usize::from(column);
    if at < counts.len() {
        counts[at] += 1;
    }
}

impl Past {
    // None yet.
    fn none() -> Past
        ensures count { result.count ≡ 0 }
        ensures delivered { result.delivered ≡ replicate 256 0 }
        ensures picked { result.picked ≡ replicate 256 0 }
    {
        Past {
            count: 0,
            delivered: [0; 256],
            picked: [0; 256],
        }
    }

    // Takes in the action that comes after them.
    fn add(&mut self, action: &Action)
        requires few { self.now.count < 1500 }
        requires delivered { slice_index_or self.now.delivered action.now.to.column 0 < 65535 }
        requires picked { slice_index_or self.now.picked action.now.to.column 0 < 65535 }
        ensures count { self.new.count ≡ self.old.count + 1 }
        ensures delivered { self.new.delivered ≡ (if is_deliver action.now.work then raised self.old.delivered action.now.to.column else self.old.delivered) }
        ensures picked { self.new.picked ≡ (if is_pick_up action.now.work then raised self.old.picked action.now.to.column else self.old.picked) }
    {
        match action.work {
            Work::Deliver => raise(&mut self.delivered, action.to.column),
            Work::PickUp => raise(&mut self.picked, action.to.column),
            _ => {}
        }
        self.count += 1;
    }
}

// Takes in the actions of a list that ended before a time, up to the first that did not.
fn pass(list: &[Action], past: &mut Past, time: u32)
    requires few { length (plan_of list.now) ≤ 1500 }
    requires passed { Passed (plan_of list.now) time past.now.count }
    requires delivered { Tally delivers (plan_of list.now) time past.now.count past.now.delivered }
    requires picked { Tally picks (plan_of list.now) time past.now.count past.now.picked }
    ensures passed { Passed (plan_of list.now) time past.new.count }
    ensures delivered { Tally delivers (plan_of list.now) time past.new.count past.new.delivered }
    ensures picked { Tally picks (plan_of list.now) time past.new.count past.new.picked }
{
    while past.count < list.len() && list[past.count].span.end() < time {
        past.add(&list[past.count]);
    }
}

impl Actions {
    // None yet.
    pub(crate) fn none(room: Reserve<Action, MOST_ACTIONS>) -> Actions
        ensures { plan_of result.list.items ≡ [] }
    {
        Actions {
            list: room.into_vec(),
            past: Past::none(),
            most: 0,
        }
    }

    // Takes in an action that starts no earlier than the last.
    pub(crate) fn push(&mut self, action: Action)
        requires few { length (plan_of self.now.list.items) < 1500 }
        requires in_order { falls (plan_of self.now.list.items) (action_of action) ≡ false }
        ensures { plan_of self.new.list.items ≡ plan_of self.old.list.items ++ (action_of action ∷ []) }
    {
        let start = action.span.start();
        self.most = self.most.max(running_at(self.recent(), start) + 1);
        self.list.push_reserved(action);
        pass(self.list.as_slice(), &mut self.past, start);
    }

    // Those that did not end before the last start, and some between them.
    pub(crate) fn recent(&self) -> &[Action]
        ensures { plan_of result.now ≡ drop self.now.past.count (plan_of self.now.list.items) }
    {
        &self.list.as_slice()[self.past.count..]
    }
}
