// Playing the plan of a job on its site.
ghost use Rattle.std.specs.Prelude.{◌≡◌, ℕ, ◌≤◌, map, length, IfOk};
ghost use Rattle.std.specs.List.{range_with_len};
ghost use Rattle.terms.specs.Refusals.{refusal_in};
ghost use Rattle.ground.specs.View.{square_of};
ghost use Rattle.gate.specs.Scene.{height_at};
ghost use Rattle.gate.specs.View.{scene_of};
ghost use Rattle.undertaking.specs.Runs.{reply_of};
ghost use Rattle.terms.specs.View.{settings_of};
ghost use Rattle.plan.specs.Rules.{Rules};
ghost use Rattle.play.specs.Play.{play_on};
ghost use Rattle.play.specs.Stands.{Comes};
ghost use Rattle.undertaking.specs.View.{room_of};
ghost use Rattle.service.specs.View.{deeds_of};
ghost use Rattle.job.specs.Replies.{heights as drawn};
ghost use Rattle.job.specs.View.{first_refusal, site_of};

use crate::heights::Heights;
use crate::opened::{Job, Judged};
use gate::Site;
use ground::{Ground, MOST_COLUMNS};
use service::{Deed, Stage, perform};
use std::alloc::{AllocError, Global};
use terms::{Refusal, Reserve};
use undertaking::{Answer, Performance};

// The room that a plan is played in: a stage for one deed, and room for the heights afterwards.
#[derive(Drop)]
pub(crate) struct PlayRoom {
    stage: Stage,
    heights: Reserve<u8, MOST_COLUMNS>,
    ghost no_deeds: { length (deeds_of stage) ≡ 0 },
    ghost one_fits: { room_of stage ≡ 1 },
}

impl PlayRoom {
    // Room for any plan on the largest ground.
    pub(crate) fn new(heap: Global) -> Result<PlayRoom, AllocError> {
        Ok(PlayRoom {
            stage: Stage::new(heap, 1)?,
            heights: Reserve::new(heap)?,
        })
    }
}

// The heights of so many columns of a site, in order.
fn read_heights<G: Ground>(site: &Site<G>, columns: u16, room: Reserve<u8, MOST_COLUMNS>) -> Heights
    requires { columns ≤ 256 }
    ensures { result.values.items ≡ map (height_at (scene_of site.now).columns) (range_with_len 0 columns) }
{
    let mut values = room.into_vec();
    // By number: a site tells of its columns one by one, and lends no list of them.
    for column in 0..columns {
        values.push_reserved(site.look(column).height);
    }
    Heights { values }
}

// Why the first request was refused, if it was.
fn stopped(answers: &[Answer]) -> Result<(), Refusal>
    ensures { refusal_in result ≡ first_refusal (map reply_of answers.now) }
{
    match answers {
        [Err(refusal), ..] => Err(*refusal),
        _ => Ok(()),
    }
}

// Plays the plan of a job: why it was stopped, or the heights then.
pub(crate) fn play_job(judged: Judged, room: PlayRoom) -> Result<Heights, Refusal>
    ensures answer { refusal_in result ≡ (play_on judged.plan.plan (site_of judged.job)).answer }
    ensures comes { (targets : ℕ → ℕ) → Rules (square_of judged.job.ground) (settings_of judged.job.settings) judged.plan.plan targets → Comes (square_of judged.job.ground) (settings_of judged.job.settings) judged.plan.plan targets (play_on judged.plan.plan (site_of judged.job)) }
    ensures heights { IfOk result (λ hs. hs.values.items ≡ drawn (square_of judged.job.ground).columns (play_on judged.plan.plan (site_of judged.job)).site) }
{
    let Judged { job, plan } = judged;
    let Job { ground, settings } = job;
    let PlayRoom { mut stage, heights } = room;
    let columns = ground.columns();
    // There is room for it.
    let _ = stage.add(Deed::Play(plan));
    let Performance { site, answers } = perform(stage, ground, settings);
    stopped(&answers)?;
    Ok(read_heights(&site, columns, heights))
}
