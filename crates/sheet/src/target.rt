// The target of a column.

#[derive(Clone, Copy, PartialEq, Eq, Debug)]
pub struct Target {
    pub column: u16,
    pub height: u8,
}
