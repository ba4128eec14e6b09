// Playing plans on a site.
#![tactic(auto)]

mod player;
mod spent;

pub use spent::play;
