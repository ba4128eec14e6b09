// A site from its opening through a list of requests.
ghost use Rattle.std.specs.Prelude.{◌≡◌, map};
ghost use Rattle.std.specs.List.{fold};
ghost use Rattle.terms.specs.View.{settings_of};
ghost use Rattle.gate.specs.Scene.{opened};
ghost use Rattle.gate.specs.View.{scene_of};
ghost use Rattle.undertaking.specs.Requests.{each_answers};
ghost use Rattle.undertaking.specs.Runs.{reply_of};
ghost use Rattle.undertaking.specs.Undertaking.{Undertaking};
ghost use Rattle.undertaking.specs.View.{requests_of};

use crate::answer::Answer;
use crate::request::Request;
use crate::stage::Stage;
use gate::{Call, Site};
use ground::Ground;
use terms::Settings;

// A site after the requests, and what they answered.
#[derive(Drop)]
pub struct Performance<G: Ground> {
    pub site: Site<G>,
    pub answers: Vec<Answer>,
}

// Opens a site, makes every request, in order, and notes its answer; there is room for the answers.
pub fn run<R: Request, G: Ground>(stage: Stage<R>, ground: G, settings: Settings) -> Performance<G>
    ensures after { scene_of result.site ≡ fold R.becomes (opened (G.Ground.meaning ground) (settings_of settings)) (requests_of stage) }
    ensures answers { map reply_of result.answers.items ≡ each_answers R.answers R.becomes (opened (G.Ground.meaning ground) (settings_of settings)) (requests_of stage) }
{
    let mut answers = stage.answers;
    let mut site = Site::open(stage.plot, ground, settings);
    for request in stage.requests {
        answers.push_reserved(request.make(&mut site));
    }
    Performance { site, answers }
}

// Opens a site and makes every call, in order.
pub fn perform<G: Ground>(stage: Stage<Call>, ground: G, settings: Settings) -> Performance<G>
    ensures { Undertaking (G.Ground.meaning ground) (settings_of settings) (requests_of stage) (map reply_of result.answers.items) (scene_of result.site) }
{
    run(stage, ground, settings)
}
