// Places for links, some of them empty.
ghost use Rattle.std.specs.Prelude.{◌≡◌, length, is_none};
ghost use Rattle.std.specs.List.{slice_get, filter_map, position};
ghost use Rattle.ground.specs.Members.{somes};

// How many places are filled.
pub(crate) fn count(places: &[Option<u16>]) -> usize
    ensures { result ≡ length (filter_map (λ p. p) places.now) }
{
    places.iter().filter_map(|place| *place).count()
}

// What stands in number k of the places that are filled.
// Counted by hand: each step of a walk asks it, and `filter_map(..).nth(k)` takes three times as long.
pub(crate) fn pick(places: &[Option<u16>], k: usize) -> Option<u16>
    ensures { result ≡ slice_get (somes places.now) k }
{
    let mut left = k;
    for place in places {
        if let Some(linked) = *place {
            if left == 0 {
                return Some(linked);
            }
            left -= 1;
        }
    }
    None
}

// The first place that is empty, if there is one.
pub(crate) fn first_empty(places: &[Option<u16>]) -> Option<usize>
    ensures { result ≡ position (λ p. is_none p) places.now }
{
    places.iter().position(|place| place.is_none())
}
