// What is undertaken of a site: it is opened, and a whole list of requests is made.
#![tactic(auto)]

mod answer;
mod performing;
mod request;
mod stage;
mod staging;
#[cfg(test)]
mod tests;

pub use answer::Answer;
pub use performing::{Performance, perform, run};
pub use request::Request;
pub use stage::Stage;
