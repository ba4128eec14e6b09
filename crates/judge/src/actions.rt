// The actions of a sheet, as far as they are judged.
ghost use Rattle.std.specs.Prelude.{◌≡◌, ℕ, ◌<◌, ◌≤◌, length, vec_len, vec_items, vec_capacity};
ghost use Rattle.plan.specs.Plan.{delivers, line, picks};
ghost use Rattle.plan.specs.View.{plan_of};
ghost use Rattle.judge.specs.Finding.{Passed, Tally};
ghost use Rattle.judge.specs.Figures.{most_at_once};
ghost use Rattle.judge.specs.Judging.{latest_start};

use plan::Action;

// The first actions of a list: how many they are, and how many blocks they delivered to each column and picked up from it.
#[derive(Drop)]
pub(crate) struct Past {
    pub(crate) count: usize,
    pub(crate) delivered: [u16; 256],
    pub(crate) picked: [u16; 256],
}

// No more actions than a sheet can have. Those that are past ended before the last start: no later line has to look at them again.
// `most` is the most that run at one time.
#[derive(Drop)]
pub(crate) struct Actions {
    pub(crate) list: Vec<Action>,
    pub(crate) past: Past,
    pub(crate) most: usize,
    ghost few: { vec_len list ≤ 1500 },
    ghost room: { 1500 ≤ vec_capacity list },
    ghost in_order: { (i : ℕ) → i < length (plan_of (vec_items list)) → (line (plan_of (vec_items list)) i).start ≤ latest_start (plan_of (vec_items list)) },
    ghost busiest: { most ≡ most_at_once (plan_of (vec_items list)) },
    ghost passed: { Passed (plan_of (vec_items list)) (latest_start (plan_of (vec_items list))) past.count },
    ghost delivered: { Tally delivers (plan_of (vec_items list)) (latest_start (plan_of (vec_items list))) past.count past.delivered },
    ghost picked: { Tally picks (plan_of (vec_items list)) (latest_start (plan_of (vec_items list))) past.count past.picked },
}
