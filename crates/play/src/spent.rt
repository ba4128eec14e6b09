// Playing an accepted plan.
ghost use Rattle.std.specs.Prelude.{◌≡◌};
ghost use Rattle.terms.specs.Refusals.{refusal_in};
ghost use Rattle.gate.specs.View.{scene_of};
ghost use Rattle.play.specs.Play.{play_on};
ghost use Rattle.play.specs.Stands.{PlaysStand};

use crate::player::play_actions;
use gate::Site;
use ground::Ground;
use judge::Accepted;
use terms::Refusal;

// Plays an accepted plan, which is used up by it, refused or not; only a fresh site is played on. What comes of a plan that keeps
// the rules is `PlaysStand`.
pub fn play<G: Ground>(site: &mut Site<G>, accepted: Accepted) -> Result<(), Refusal>
    ensures answer { refusal_in result ≡ (play_on accepted.plan (scene_of site.old)).answer }
    ensures after { scene_of site.new ≡ (play_on accepted.plan (scene_of site.old)).site }
    ensures stands { PlaysStand }
{
    play_actions(site, accepted.actions())
}
