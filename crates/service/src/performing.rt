// A site from its opening through a list of deeds.
ghost use Rattle.std.specs.Prelude.{map};
ghost use Rattle.terms.specs.View.{settings_of};
ghost use Rattle.gate.specs.View.{scene_of};
ghost use Rattle.undertaking.specs.Runs.{reply_of};
ghost use Rattle.service.specs.View.{deeds_of};
ghost use Rattle.service.specs.Whole.{Whole};

use crate::deed::Deed;
use ground::Ground;
use terms::Settings;
use undertaking::{Performance, run};

// Deeds to do from an opening, with the room that they need, made before.
pub type Stage = undertaking::Stage<Deed>;

// Opens a site and does every deed, in order.
pub fn perform<G: Ground>(stage: Stage, ground: G, settings: Settings) -> Performance<G>
    ensures { Whole (G.Ground.meaning ground) (settings_of settings) (deeds_of stage) (map reply_of result.answers.items) (scene_of result.site) }
{
    run(stage, ground, settings)
}
