// Room for the columns of a site, made before it is opened.
ghost use Rattle.std.specs.Prelude.{◌≡◌, ◌≤◌, replicate, IfOk};
ghost use Rattle.terms.specs.View.{room_of};
ghost use Rattle.gate.specs.Column.{fresh};

use crate::column::Column;
use ground::MOST_COLUMNS;
use std::alloc::{AllocError, Global};
use terms::Reserve;

#[derive(Drop)]
pub struct Plot {
    pub(crate) columns: Reserve<Column, MOST_COLUMNS>,
}

impl Plot {
    // Room for the largest ground.
    pub fn new(heap: Global) -> Result<Plot, AllocError>
        ensures { IfOk result (λ plot. 256 ≤ room_of plot.columns) }
    {
        let columns = Reserve::new(heap)?;
        Ok(Plot { columns })
    }

    // As many columns as are asked for, free and at height 0, in the room that is there.
    pub(crate) fn lay_out(self, count: u16) -> Vec<Column>
        requires { count ≤ 256 }
        ensures { result.items ≡ replicate count fresh }
    {
        let mut columns = self.columns.into_vec();
        columns
            .resize(usize::from(count), Column::default())
            .unwrap();
        columns
    }
}
