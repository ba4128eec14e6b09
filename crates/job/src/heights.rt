// The heights of the columns of a site.
ghost use Rattle.std.specs.Prelude.{◌≤◌, vec_len};

#[derive(Drop)]
pub(crate) struct Heights {
    pub(crate) values: Vec<u8>,
    ghost few: { vec_len values ≤ 256 },
}
