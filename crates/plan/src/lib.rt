// Plans: the actions that lines of a sheet stand for, and the rules that a line has to keep by itself.
#![tactic(auto)]

mod action;
mod actions;
mod asked;
mod line;
mod span;
mod spans;
mod times;

pub use action::{Action, Spot};
pub use line::action_of;
pub use span::Span;
