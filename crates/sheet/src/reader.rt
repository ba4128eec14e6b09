// A sheet as far as it has been read, and what its lines are read for.
ghost use Rattle.std.specs.Prelude.{◌≤◌, vec_len, vec_capacity};

use crate::{ActLine, Target};
use ground::Ground;
use terms::Settings;

// Of `total` lines, `lines` have been read; there is room for what the rest show.
#[derive(Drop)]
pub(crate) struct Reader<'a, G: Ground> {
    pub(crate) ground: &'a G,
    pub(crate) settings: &'a Settings,
    pub(crate) total: u16,
    pub(crate) lines: u16,
    pub(crate) targets: Vec<Target>,
    pub(crate) acts: Vec<ActLine>,
    ghost few_lines: { total ≤ 1500 },
    ghost few_targets: { vec_len targets ≤ lines },
    ghost few_acts: { vec_len acts ≤ lines },
    ghost targets_fit: { 1500 ≤ vec_capacity targets },
    ghost acts_fit: { 1500 ≤ vec_capacity acts },
}
