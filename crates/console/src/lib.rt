// A console for a hall: a script of calls in, a line of answer for each out.
#![tactic(auto)]

mod answering;
mod command;
mod cut;
mod desk;
mod drawing;
mod entry;
mod hall;
mod lists;
mod made;
mod opening;
mod openings;
mod page;
mod reading;
mod script;
mod serving;
mod usage;
mod wording;
mod words;

pub use answering::answer;
pub use desk::Desk;
