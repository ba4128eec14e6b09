// How many timesteps each kind of work takes; none takes no time.
ghost use Rattle.std.specs.Prelude.{◌≤◌};

#[derive(Clone, Copy)]
pub struct Durations {
    pub(crate) entry: u8,
    pub(crate) leave: u8,
    pub(crate) loaded: u8,
    pub(crate) empty: u8,
    pub(crate) pickup: u8,
    pub(crate) deliver: u8,
    ghost entry_lasts: { 1 ≤ entry },
    ghost leave_lasts: { 1 ≤ leave },
    ghost loaded_lasts: { 1 ≤ loaded },
    ghost empty_lasts: { 1 ≤ empty },
    ghost pickup_lasts: { 1 ≤ pickup },
    ghost deliver_lasts: { 1 ≤ deliver },
}
