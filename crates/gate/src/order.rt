// What recall answers.

// What a robot does next: each is an action of its own, and not a column that may be missing.
#[derive(Clone, Copy, PartialEq, Eq, Debug)]
pub enum Next {
    Leaves,
    Moves { to: u16 },
}

// The robot at a column, what it does next, and how many actions are left until the site is empty, this one included.
#[derive(Clone, Copy, PartialEq, Eq, Debug)]
pub struct Order {
    pub column: u16,
    pub next: Next,
    pub left: u32,
}
