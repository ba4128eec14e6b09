// Columns of any kind that have a height.
ghost use Rattle.std.specs.Prelude.{◌≡◌, ℕ, not};
ghost use Rattle.ways.specs.View.{heights_by, marked};

pub trait Tall {
    ghost tallness: { Self → ℕ };

    // How many blocks stand on the column.
    fn height(&self) -> u8
        ensures { result ≡ tallness self.now };
}

// The height of a column; 0 where there is none.
pub(crate) fn height_at<C: Tall>(columns: &[C], column: u16) -> u8
    ensures { result ≡ heights_by C.Tall.tallness columns.now column }
{
    columns
        .get(usize::from(column))
        .map_or(0, |here| here.height())
}

// Whether a column is settled: no mark says that it is changing.
pub(crate) fn is_settled(marks: &[u8], column: u16) -> bool
    ensures { result ≡ not (marked marks.now column) }
{
    marks.get(usize::from(column)).is_none_or(|mark| *mark == 0)
}
