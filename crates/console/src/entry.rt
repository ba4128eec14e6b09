// A line of a script that is answered.
ghost use Rattle.std.specs.Prelude.{◌≤◌, length};

// Its number, its bytes, and the sheet below it.
#[derive(Drop)]
pub(crate) struct Entry<'a> {
    pub(crate) line: usize,
    pub(crate) text: &'a [u8],
    pub(crate) sheet: &'a [u8],
    ghost short: { length text.now ≤ 65536 },
}
