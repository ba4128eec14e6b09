// The room that a job is answered in, made before it is read.
ghost use Rattle.std.specs.Prelude.{◌≤◌, IfOk};
ghost use Rattle.terms.specs.View.{room_of};

use crate::playing::PlayRoom;
use crate::text::MOST_BYTES;
use judge::Room;
use std::alloc::{AllocError, Global};
use terms::Reserve;

#[derive(Drop)]
pub struct Desk {
    pub(crate) judging: Room,
    pub(crate) playing: PlayRoom,
    pub(crate) text: Reserve<u8, MOST_BYTES>,
}

impl Desk {
    // Room for the largest job.
    pub fn new(heap: Global) -> Result<Desk, AllocError>
        ensures { IfOk result (λ d. 807 ≤ room_of d.text) }
    {
        Ok(Desk {
            judging: Room::new(heap)?,
            playing: PlayRoom::new(heap)?,
            text: Reserve::new(heap)?,
        })
    }
}
