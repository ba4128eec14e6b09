// Waiting, which is nothing but ticks.
ghost use Rattle.std.specs.Prelude.{◌≡◌};
ghost use Rattle.gate.specs.Time.{Settles, after_ticks, settled};
ghost use Rattle.gate.specs.View.{scene_of};

use crate::site::Site;
use ground::Ground;

impl<G: Ground> Site<G> {
    // So many ticks. Where nothing runs after one, those that are left would alter nothing, and are not made.
    pub fn wait(&mut self, times: u32)
        ensures { scene_of self.new ≡ after_ticks times (scene_of self.old) }
    {
        for _tick in 0..times {
            self.tick();
            if !self.any_runs() {
                return;
            }
        }
    }

    // Ticks until nothing runs.
    pub fn settle(&mut self)
        ensures value { scene_of self.new ≡ settled (scene_of self.old) }
        ensures words { Settles (scene_of self.old) }
    {
        while self.any_runs() {
            self.tick();
        }
    }
}
