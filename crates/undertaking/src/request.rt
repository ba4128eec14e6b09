// What a site can be asked, and the seven calls as such requests.
ghost use Rattle.std.specs.Prelude.{◌≡◌};
ghost use Rattle.gate.specs.Gate.{step};
ghost use Rattle.gate.specs.Scene.{Scene};
ghost use Rattle.gate.specs.View.{scene_of};
ghost use Rattle.undertaking.specs.Runs.{Reply, reply, reply_of};

use crate::answer::Answer;
use gate::{Call, Site};
use ground::Ground;

// A kind of request: what one answers, and what it makes of the site, by the site that it is made of.
pub trait Request: Drop {
    ghost answers: { Scene → Self → Reply };

    ghost becomes: { Scene → Self → Scene };

    // Makes the request; a request is used up by it, refused or not.
    fn make<G: Ground>(self, site: &mut Site<G>) -> Answer
        ensures answer { reply_of result ≡ answers (scene_of site.old) self }
        ensures after { scene_of site.new ≡ becomes (scene_of site.old) self };
}

impl Request for Call {
    ghost answers = { reply };

    ghost becomes = { step };

    fn make<G: Ground>(self, site: &mut Site<G>) -> Answer {
        match self {
            Call::Enter { column, block } => site.enter(column, block)?,
            Call::Move { from, to } => site.move_to(from, to)?,
            Call::Lay { from, to } => site.lay(from, to)?,
            Call::Lift { from, to } => site.lift(from, to)?,
            Call::Leave { column } => site.leave(column)?,
            Call::Tick => site.tick(),
            Call::Recall => return site.recall().map(Some),
        }
        Ok(None)
    }
}
