// A hall with an open site.
ghost use Rattle.std.specs.Prelude.{◌<◌};

use gate::Site;
use ground::Ground;
use judge::Room;

// Its site, the room for the sheets that may still be judged, and how many columns a row of its drawing has.
#[derive(Drop)]
pub(crate) struct Hall<G: Ground> {
    pub(crate) site: Site<G>,
    pub(crate) sheets: Vec<Room>,
    pub(crate) width: u16,
    ghost wide: { 0 < width },
}
