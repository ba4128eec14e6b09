// What a listed ground keeps of one column.
ghost use Rattle.std.specs.Prelude.{◌≡◌, length, if◌then◌else◌, Some, None, nat_lt};
ghost use Rattle.ground.specs.Table.{entries, with_link};

use crate::places::first_empty;

// Whether the column is at the border, and the columns linked with it: the places that are filled stand in front.
#[derive(Clone, Copy)]
pub struct Row {
    pub border: bool,
    pub to: [Option<u16>; 6],
}

impl Row {
    // The row with one more link in its first empty place, if there is one.
    pub fn with_link(mut self, column: u16) -> Option<Row>
        ensures { result ≡ (if nat_lt (length (entries self)) 6 then Some (with_link self column) else None) }
    {
        let empty = first_empty(&self.to)?;
        self.to[empty] = Some(column);
        Some(self)
    }
}
