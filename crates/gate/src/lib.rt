// The gate of a site: robots enter, move, lay, lift and leave, time passes, and the hall recalls them.
#![tactic(auto)]

mod call;
mod calls;
mod column;
mod looking;
mod order;
mod plot;
mod recall;
mod rules;
mod site;
mod time;
mod trial;

pub use call::Call;
pub use column::{Column, Part, State};
pub use order::{Next, Order};
pub use plot::Plot;
pub use site::Site;
