// Heights that are near, and the lowest neighbour of a column that has a label.
ghost use Rattle.std.specs.Prelude.{◌≡◌, Decides};
ghost use Rattle.ways.specs.Way.{Near};
ghost use Rattle.ways.specs.Table.{label, lowest_beside, fits, is_label, near};
ghost use Rattle.ways.specs.View.{heights_by};

use crate::tall::{Tall, height_at};
use ground::{Ground, Neighbours};

// Whether two heights differ by at most one.
pub fn is_near(a: u8, b: u8) -> bool
    ensures value { result ≡ near a b }
    ensures words { Decides result (Near a b) }
{
    a.abs_diff(b) <= 1
}

// Whether a column is labelled n.
fn is_labelled(steps: &[Option<u16>], column: u16, n: u16) -> bool
    ensures { result ≡ is_label (label steps.now column) n }
{
    steps.get(usize::from(column)) == Some(&Some(n))
}

// Whether a column beside another is within one height of it, and labelled n.
fn fits<C: Tall>(columns: &[C], steps: &[Option<u16>], n: u16, column: u16, beside: u16) -> bool
    ensures { result ≡ fits (heights_by C.Tall.tallness columns.now) (label steps.now) n column beside }
{
    is_near(height_at(columns, column), height_at(columns, beside)) && is_labelled(steps, beside, n)
}

// The lowest column linked with a column, within one height of it, that is labelled n.
pub(crate) fn lowest_beside<G: Ground, C: Tall>(
    ground: &G,
    columns: &[C],
    steps: &[Option<u16>],
    column: u16,
    n: u16,
) -> Option<u16>
    ensures { result ≡ lowest_beside (G.Ground.meaning ground.now) (heights_by C.Tall.tallness columns.now) (label steps.now) n column }
{
    Neighbours::of(ground, column).find(|beside| fits(columns, steps, n, column, *beside))
}
