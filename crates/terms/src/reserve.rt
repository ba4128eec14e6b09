// Room for values, made before they are there: no heap is asked for later.
ghost use Rattle.std.specs.Prelude.{◌≡◌, ◌≤◌, vec_len, vec_capacity};

// An empty list with room for N values.
#[derive(Drop)]
pub struct Reserve<T: Drop, const N: usize> {
    pub(crate) values: Vec<T>,
    ghost none: { vec_len values ≡ 0 },
    ghost room: { N ≤ vec_capacity values },
}
