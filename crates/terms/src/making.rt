// Making settings, and what they say.
ghost use Rattle.std.specs.Prelude.{◌≡◌, ◌≤◌, IfOk, IfSome};
ghost use Rattle.std.specs.Option.{option_map};
ghost use Rattle.terms.specs.Refusals.{Answers, Settles, refusal_in};
ghost use Rattle.terms.specs.Durations.{IsSet, Takes, duration_set, duration_of};
ghost use Rattle.terms.specs.View.{settings_of, times_of};
ghost use Rattle.terms.specs.Ranges.{MadeOf, settings_refusal, settings_reasons, settings_from};

use crate::{Durations, Refusal, Rule, Settings, Work};

// The durations of entry, leave, move with a block, move without, pick up and deliver, a row for each set.
const SETS: [[u8; 6]; 4] = [
    [1, 1, 1, 1, 1, 1],
    [2, 1, 1, 1, 2, 2],
    [3, 2, 3, 1, 3, 3],
    [3, 3, 3, 2, 2, 3],
];

// The duration set of a number, if there is one.
fn duration_set(number: u32) -> Option<Durations>
    ensures value { option_map times_of result ≡ duration_set number }
    ensures words { IfSome result (λ d. IsSet number (times_of d)) }
{
    // By `as`: there is no `From` between a u32 and a usize.
    let [entry, leave, loaded, empty, pickup, deliver] = *SETS.get(number as usize)?;
    Some(Durations {
        entry,
        leave,
        loaded,
        empty,
        pickup,
        deliver,
    })
}

impl Settings {
    // Settings of 1 to 16 levels, 1 to 64 robots and a duration set of 0 to 3; the numbers may be any.
    pub fn new(levels: u32, robots: u32, set: u32) -> Result<Settings, Refusal>
        ensures value { Answers (settings_refusal levels robots set) (λ s. settings_of s ≡ settings_from levels robots set) result }
        ensures words { Settles (settings_reasons levels robots set) (refusal_in result) }
        ensures means { IfOk result (λ s. MadeOf levels robots set (settings_of s)) }
    {
        let durations = duration_set(set).ok_or(Rule::SettingsRange)?;
        if !(1..=16).contains(&levels) || !(1..=64).contains(&robots) {
            return Err(Rule::SettingsRange.into());
        }
        Ok(Settings {
            levels: levels as u8,
            robots: robots as u8,
            durations,
        })
    }

    // How many levels there are: heights are below this.
    pub fn levels(&self) -> u8
        ensures { result ≡ (settings_of self.now).levels }
    {
        self.levels
    }

    // The most robots that may be on the site at once.
    pub fn robots(&self) -> u8
        ensures { result ≡ (settings_of self.now).robots }
    {
        self.robots
    }

    // How many timesteps a work takes, of a robot with or without a block.
    pub fn duration(&self, work: Work, block: bool) -> u8
        ensures value { result ≡ duration_of (settings_of self.now).times work block }
        ensures words { Takes (settings_of self.now).times work block result }
        ensures lasts { 1 ≤ result }
    {
        match work {
            Work::Entry => self.durations.entry,
            Work::Leave => self.durations.leave,
            Work::Wait => 1,
            Work::Move if block => self.durations.loaded,
            Work::Move => self.durations.empty,
            Work::PickUp => self.durations.pickup,
            Work::Deliver => self.durations.deliver,
        }
    }
}
