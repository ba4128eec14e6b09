// What opens a site.
ghost use Rattle.std.specs.Prelude.{◌≤◌, vec_capacity};

// The numbers of the settings, which may be any.
#[derive(Clone, Copy, PartialEq, Eq, Debug)]
pub(crate) struct Numbers {
    pub(crate) levels: u32,
    pub(crate) robots: u32,
    pub(crate) set: u32,
}

// The ground, and the numbers of the settings; the border list and the links of a listed one stand in the lists.
#[derive(Clone, Copy, PartialEq, Eq, Debug)]
pub(crate) enum Opening {
    Square { x: u32, y: u32, numbers: Numbers },
    Listed { columns: u16, numbers: Numbers },
}
