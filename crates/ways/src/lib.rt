// Ways home: the fewest steps from each column to the border, over any ground.
#![tactic(auto)]

mod found;
mod links;
mod search;
mod tall;
mod terrain;

pub use found::Ways;
pub use links::is_near;
pub use tall::Tall;
