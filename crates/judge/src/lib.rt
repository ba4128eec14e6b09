// Judging: whether a plan sheet keeps every rule, and what an accepted plan comes to.
#![tactic(auto)]

mod above;
mod accepted;
mod accepting;
mod actions;
mod end;
mod figures;
mod judging;
mod passing;
mod room;
mod rules;
#[cfg(test)]
mod tests;

pub use accepted::Accepted;
pub use judging::judge;
pub use room::Room;
