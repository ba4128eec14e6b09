// The whole answer of the program.
ghost use Rattle.std.specs.Prelude.{◌≡◌};
ghost use Rattle.job.specs.Replies.{answered};
ghost use Rattle.job.specs.Written.{written};
ghost use Rattle.job.specs.OrderLine.{OrderAsWritten};
ghost use Rattle.job.specs.Words.{Verdict};

use crate::Desk;
use crate::heights::Heights;
use crate::opened::judge_job;
use crate::playing::{PlayRoom, play_job};
use crate::text::Page;
use judge::Room;
use terms::Refusal;

// What comes of a job that nothing stops: the figures of its plan, and the heights once it was played.
#[derive(Drop)]
struct Played {
    makespan: u64,
    costs: u64,
    most: u64,
    heights: Heights,
}

// Why there are no figures: the first fault of a job, or why its plan was held in play.
#[derive(Clone, Copy, PartialEq, Eq, Debug)]
enum Stop {
    Bad(Refusal),
    Held(Refusal),
}

// Judges a job, and plays its plan.
fn play_out(input: &[u8], judging: Room, playing: PlayRoom) -> Result<Played, Stop>
    ensures value { written result ≡ answered input.now }
    ensures words { Verdict input.now (written result) }
{
    let judged = judge_job(input, judging).map_err(Stop::Bad)?;
    let makespan = u64::from(judged.plan.makespan());
    let costs = judged.plan.costs();
    // By `as`: there is no `From` between a usize and a u64.
    let most = judged.plan.most() as u64;
    let heights = play_job(judged, playing).map_err(Stop::Held)?;
    Ok(Played {
        makespan,
        costs,
        most,
        heights,
    })
}

// The answer to a job: its first fault, why its plan was stopped in play, or the figures of its plan and the heights then.
pub fn answer(input: &[u8], desk: Desk) -> Vec<u8>
    ensures value { result.items ≡ answered input.now }
    ensures words { Verdict input.now result.items }
    ensures order { OrderAsWritten }
{
    let Desk {
        judging,
        playing,
        text,
    } = desk;
    let mut page = Page::new(text);
    match play_out(input, judging, playing) {
        Ok(played) => {
            page.put_row(b"OK  ", played.makespan, played.costs, played.most);
            page.put_drawing(&played.heights);
        }
        Err(Stop::Bad(refusal)) => page.put_refusal(b"BAD ", refusal),
        Err(Stop::Held(refusal)) => page.put_refusal(b"HELD", refusal),
    }
    page.into_vec()
}
