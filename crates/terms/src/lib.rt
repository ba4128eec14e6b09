// What every part shares: the refusals, the kinds of work that a robot does, the settings of a site, and room made before.
#![tactic(auto)]

mod durations;
mod making;
mod refusal;
mod reserve;
mod reserving;
mod settings;
mod work;

use durations::Durations;
pub use refusal::{Layer, Refusal, Rule};
pub use reserve::Reserve;
pub use settings::Settings;
pub use work::Work;
