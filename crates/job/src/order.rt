// The numbers of a job line.

#[derive(Clone, Copy, PartialEq, Eq, Debug)]
pub(crate) struct Order {
    pub(crate) x: u32,
    pub(crate) y: u32,
    pub(crate) levels: u32,
    pub(crate) robots: u32,
    pub(crate) set: u32,
}
