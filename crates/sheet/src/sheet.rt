// A sheet that was read: its targets, its actions as they are written, and how many lines it has.
ghost use Rattle.std.specs.Prelude.{◌≤◌, vec_len};

use crate::{ActLine, Target};

#[derive(Drop)]
pub struct Sheet {
    pub targets: Vec<Target>,
    pub acts: Vec<ActLine>,
    pub lines: u16,
    ghost few_targets: { vec_len targets ≤ 1500 },
    ghost few_acts: { vec_len acts ≤ 1500 },
}
