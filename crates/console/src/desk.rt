// The room that a script is answered in, made before it is read.
ghost use Rattle.std.specs.Prelude.{◌≡◌, vec_len};

use crate::lists::Lists;
use crate::page::MOST_BYTES;
use gate::Plot;
use judge::Room;
use terms::Reserve;

// Room for the columns of any ground, for sixteen sheets, for a listed ground's border list and links, and for the answers.
#[derive(Drop)]
pub struct Desk {
    pub(crate) plot: Plot,
    pub(crate) sheets: Vec<Room>,
    pub(crate) lists: Lists,
    pub(crate) text: Reserve<u8, MOST_BYTES>,
    ghost sixteen: { vec_len sheets ≡ 16 },
}
