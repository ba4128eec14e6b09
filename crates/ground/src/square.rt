// The square ground: its sides are 1 to 16 columns long.
ghost use Rattle.std.specs.Prelude.{◌≤◌};

#[derive(Clone, Copy)]
pub struct Square {
    pub(crate) x: u8,
    pub(crate) y: u8,
    ghost x_low: { 1 ≤ x },
    ghost x_high: { x ≤ 16 },
    ghost y_low: { 1 ≤ y },
    ghost y_high: { y ≤ 16 },
}
