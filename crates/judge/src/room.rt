// Room for judging a sheet, made before it is judged.
ghost use Rattle.std.specs.Prelude.{◌≤◌, IfOk};
ghost use Rattle.terms.specs.View.{room_of};

use plan::Action;
use std::alloc::{AllocError, Global};
use terms::Reserve;

// The most actions that a sheet can have.
pub(crate) const MOST_ACTIONS: usize = sheet::MOST_LINES;

#[derive(Drop)]
pub struct Room {
    pub(crate) reading: sheet::Room,
    pub(crate) actions: Reserve<Action, MOST_ACTIONS>,
}

impl Room {
    // Room for the longest sheet.
    pub fn new(heap: Global) -> Result<Room, AllocError>
        ensures { IfOk result (λ room. 1500 ≤ room_of room.actions) }
    {
        let reading = sheet::Room::new(heap)?;
        let actions = Reserve::new(heap)?;
        Ok(Room { reading, actions })
    }
}
