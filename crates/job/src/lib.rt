// Jobs: a job line and a sheet in, the verdict's text out.
#![tactic(auto)]

mod desk;
mod heights;
mod line;
mod opened;
mod order;
mod playing;
mod reply;
mod text;

pub use desk::Desk;
pub use reply::answer;
