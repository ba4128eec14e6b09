// Plan sheets: lines of fixed width, read into targets and actions as they are written.
#![tactic(auto)]

mod field;
mod figure;
mod line;
mod read;
mod reader;
mod record;
mod room;
mod sheet;
mod target;
#[cfg(test)]
mod tests;
mod unread;

pub use field::number;
pub use figure::tower_work;
pub use line::LINE_LENGTH;
pub use read::read_sheet;
pub use record::{ActLine, Letter, Place, Side};
pub use room::{MOST_LINES, Room};
pub use sheet::Sheet;
pub use target::Target;
