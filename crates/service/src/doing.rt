// A deed as a request of a site.
ghost use Rattle.service.specs.View.{given_done, given_reply};

use crate::deed::Deed;
use gate::Site;
use ground::Ground;
use play::play;
use undertaking::{Answer, Request};

// An accepted plan is used up by its playing.
impl Request for Deed {
    ghost answers = { given_reply };

    ghost becomes = { given_done };

    fn make<G: Ground>(self, site: &mut Site<G>) -> Answer {
        match self {
            Deed::Call(call) => call.make(site),
            Deed::Play(accepted) => play(site, accepted).map(|()| None),
        }
    }
}
