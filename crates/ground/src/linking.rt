// Whether two columns of a ground are linked, whatever its kind.
ghost use Rattle.std.specs.Prelude.{◌≡◌};

use crate::{Ground, Neighbours};

// Whether a column is linked with another; no where there is no such column.
pub fn is_linked<G: Ground>(ground: &G, column: u16, other: u16) -> bool
    ensures { result ≡ (G.Ground.meaning ground.now).linked column other }
{
    Neighbours::of(ground, column).any(|linked| linked == other)
}
