// What a written line asks for, before it is known whether it can be done.
use terms::Work;

// A column and a height as they are written, whether or not there are such.
#[derive(Clone, Copy, PartialEq, Eq, Debug)]
pub(crate) struct Point {
    pub(crate) column: u32,
    pub(crate) height: u32,
}

// A work from a point to another; both are the same where the other side is outside.
#[derive(Clone, Copy, PartialEq, Eq, Debug)]
pub(crate) struct Asked {
    pub(crate) work: Work,
    pub(crate) from: Point,
    pub(crate) to: Point,
}
