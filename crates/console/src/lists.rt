// The border list and the links of a listed ground, as a line gives them.
ghost use Rattle.std.specs.Prelude.{◌≤◌, vec_capacity};

// There is room for as many as the longest script has.
#[derive(Drop)]
pub(crate) struct Lists {
    pub(crate) border: Vec<u8>,
    pub(crate) links: Vec<(u16, u16)>,
    ghost border_fits: { 65536 ≤ vec_capacity border },
    ghost links_fit: { 65536 ≤ vec_capacity links },
}
