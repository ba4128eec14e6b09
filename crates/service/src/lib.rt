// All eight calls: a site is opened, and a whole list of them is made.
#![tactic(auto)]

mod deed;
mod doing;
mod performing;
#[cfg(test)]
mod tests;

pub use deed::Deed;
pub use performing::{Stage, perform};
