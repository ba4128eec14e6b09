// The settings of a site: its levels, the most robots on it, and how long their work takes.
// No model: the proofs of other crates read the ranges off these ghost fields, and a model would hide them.
ghost use Rattle.std.specs.Prelude.{◌≤◌};

use crate::Durations;

#[derive(Drop)]
pub struct Settings {
    pub(crate) levels: u8,
    pub(crate) robots: u8,
    pub(crate) durations: Durations,
    ghost levels_low: { 1 ≤ levels },
    ghost levels_high: { levels ≤ 16 },
    ghost robots_low: { 1 ≤ robots },
    ghost robots_high: { robots ≤ 64 },
}
