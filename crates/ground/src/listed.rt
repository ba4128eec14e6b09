// The listed ground: a border and links that are listed one by one, kept as a row for each column.
ghost use Rattle.std.specs.Prelude.{◌≡◌, ℕ, ◌<◌, None, length, slice_index_or};
ghost use Rattle.std.specs.List.{slice_get};
ghost use Rattle.ground.specs.Meaning.{Lawful, neighbours};
ghost use Rattle.ground.specs.Table.{entries, in_row, no_row, tabled};

use crate::row::Row;

// There are 256 rows, whatever the ground: memory is fixed, and a ground is made without a heap.
#[derive(Drop)]
pub struct Listed {
    pub(crate) columns: u16,
    pub(crate) rows: [Row; 256],
    ghost lawful: { Lawful (tabled columns rows) },
    ghost rows_wide: { (c : ℕ) → c < columns → length (slice_index_or rows c no_row).to ≡ 6 },
    ghost rows_packed: { (c k : ℕ) → slice_index_or (slice_index_or rows c no_row).to k None ≡ slice_get (entries (slice_index_or rows c no_row)) k },
    ghost rows_tell: { (c : ℕ) → neighbours (tabled columns rows) c ≡ in_row columns rows c },
}
