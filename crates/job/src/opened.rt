// A job's ground and settings, and the judging of its sheet.
ghost use Rattle.std.specs.Prelude.{◌≡◌, Ok};
ghost use Rattle.terms.specs.Ranges.{settings_from};
ghost use Rattle.terms.specs.Refusals.{Answers};
ghost use Rattle.terms.specs.View.{settings_of};
ghost use Rattle.ground.specs.Squared.{squared};
ghost use Rattle.ground.specs.View.{square_of};
ghost use Rattle.job.specs.Jobs.{job_refusal, making_refusal};
ghost use Rattle.job.specs.View.{Judges};

use crate::line::read_order;
use crate::order::Order;
use ground::Square;
use judge::{Accepted, Room, judge};
use sheet::LINE_LENGTH;
use terms::{Refusal, Settings};

#[derive(Drop)]
pub(crate) struct Job {
    pub(crate) ground: Square,
    pub(crate) settings: Settings,
}

// A job whose plan was accepted.
#[derive(Drop)]
pub(crate) struct Judged {
    pub(crate) job: Job,
    pub(crate) plan: Accepted,
}

// The ground and the settings of a job's numbers.
fn open_job(order: Order) -> Result<Job, Refusal>
    ensures { Answers (making_refusal (Ok order)) (λ j. (square_of j.ground ≡ squared order.x order.y) × (settings_of j.settings ≡ settings_from order.levels order.robots order.set)) result }
{
    Ok(Job {
        ground: Square::new(order.x, order.y)?,
        settings: Settings::new(order.levels, order.robots, order.set)?,
    })
}

// Judges a job: its line, and the sheet behind it.
pub(crate) fn judge_job(input: &[u8], room: Room) -> Result<Judged, Refusal>
    ensures { Answers (job_refusal input.now) (Judges input.now) result }
{
    let job = open_job(read_order(input)?)?;
    let plan = judge(&job.ground, &job.settings, &input[LINE_LENGTH..], room)?;
    Ok(Judged { job, plan })
}
