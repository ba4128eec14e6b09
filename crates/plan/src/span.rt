// When an action runs: from its start up to, but not including, its end. Form: that the end comes after the start is part of the
// type, and nothing that is made of spans asks for it again.
ghost use Rattle.std.specs.Prelude.{◌<◌};

#[derive(Clone, Copy, PartialEq, Eq, Debug)]
pub struct Span {
    pub(crate) start: u32,
    pub(crate) end: u32,
    ghost ordered: { start < end },
}
