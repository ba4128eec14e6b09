// Room for the records of a sheet, made before it is read.
ghost use Rattle.std.specs.Prelude.{◌≤◌, IfOk};
ghost use Rattle.terms.specs.View.{room_of};

use crate::{ActLine, Target};
use std::alloc::{AllocError, Global};
use terms::Reserve;

// The most lines that a sheet may have.
pub const MOST_LINES: usize = 1500;

// Room for what each line of the longest sheet may show.
#[derive(Drop)]
pub struct Room {
    pub(crate) targets: Reserve<Target, MOST_LINES>,
    pub(crate) acts: Reserve<ActLine, MOST_LINES>,
}

impl Room {
    // Room for the longest sheet.
    pub fn new(heap: Global) -> Result<Room, AllocError>
        ensures { IfOk result (λ room. (1500 ≤ room_of room.targets) × (1500 ≤ room_of room.acts)) }
    {
        let targets = Reserve::new(heap)?;
        let acts = Reserve::new(heap)?;
        Ok(Room { targets, acts })
    }
}
