// A site over any ground.
ghost use Rattle.std.specs.Prelude.{◌≡◌, vec_len};

use crate::column::Column;
use ground::Ground;
use terms::Settings;

// The columns have heights and states. The marks say which columns are changing, in bytes, as a search for ways home takes them,
// and stand apart from the columns, since a trial changes them while the columns are lent.
// No model, which is a value without functions: a clause reads a site as its scene, with the meaning of the ground.
#[derive(Drop)]
pub struct Site<G: Ground> {
    // Its ground; in a ghost field that word is a tactic's.
    pub(crate) floor: G,
    pub(crate) settings: Settings,
    pub(crate) columns: Vec<Column>,
    pub(crate) marks: [u8; 256],
    ghost one_each: { vec_len columns ≡ (G.Ground.meaning floor).columns },
}
