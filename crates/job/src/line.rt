// The job line.
ghost use Rattle.std.specs.Prelude.{◌≡◌, ◌≤◌, length, Ok};
ghost use Rattle.terms.specs.Refusals.{Answers, first_of, told, told_of};
ghost use Rattle.terms.specs.declared.refusal.Rule.TheVariants.{FieldUnreadable};
ghost use Rattle.job.specs.Jobs.{is_job, order, order_tests};

use crate::order::Order;
use sheet::{LINE_LENGTH, number};
use terms::{Refusal, Rule};

// Whether a line begins with the word JOB and ends with a newline.
fn is_job_line(line: &[u8; LINE_LENGTH]) -> bool
    ensures { result ≡ is_job line.now }
{
    matches!(line, [b'J', b'O', b'B', b' ', .., b'\n'])
}

// The refusal of a job line whose field of a number cannot be read.
fn unreadable(field: u16) -> Refusal
    ensures { told_of result ≡ told FieldUnreadable 0 field }
{
    Refusal::at(Rule::FieldUnreadable, 0, field)
}

// The numbers of the job line that an input begins with, or why it has none: its first fault.
pub(crate) fn read_order(input: &[u8]) -> Result<Order, Refusal>
    ensures { Answers (first_of (order_tests input.now)) (λ o. (order input.now ≡ Ok o) × (35 ≤ length input.now)) result }
{
    let line = input.first_chunk::<LINE_LENGTH>().ok_or(Rule::SheetShape)?;
    if !is_job_line(line) {
        return Err(Rule::LineShape.into());
    }
    let fields = &line[4..34];
    // Form: at the first field that shows nothing reading stops, and tells that field's number.
    let Some(x) = number(&fields[0..6]) else {
        return Err(unreadable(1));
    };
    let Some(y) = number(&fields[6..12]) else {
        return Err(unreadable(2));
    };
    let Some(levels) = number(&fields[12..18]) else {
        return Err(unreadable(3));
    };
    let Some(robots) = number(&fields[18..24]) else {
        return Err(unreadable(4));
    };
    let Some(set) = number(&fields[24..30]) else {
        return Err(unreadable(5));
    };
    Ok(Order {
        x,
        y,
        levels,
        robots,
        set,
    })
}
