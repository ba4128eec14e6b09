// The kinds of work that take a robot's time.

#[derive(Clone, Copy, PartialEq, Eq, Debug)]
pub enum Work {
    Entry,
    Leave,
    Wait,
    Move,
    PickUp,
    Deliver,
}
