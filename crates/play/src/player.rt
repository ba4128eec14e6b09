// Plays a list of actions on a site: each call at its time, until one is refused.
ghost use Rattle.std.specs.Prelude.{◌≡◌};
ghost use Rattle.terms.specs.Refusals.{refusal_in, told_of};
ghost use Rattle.gate.specs.View.{scene_of};
ghost use Rattle.plan.specs.View.{action_of, plan_of};
ghost use Rattle.play.specs.Play.{call_of, called, is_fresh, on_line, play, play_on, refusal_of};

use gate::Site;
use ground::Ground;
use plan::Action;
use terms::{Refusal, Rule, Work};

// Makes the call that an action names; a wait names none.
fn call<G: Ground>(site: &mut Site<G>, action: &Action) -> Result<(), Refusal>
    ensures answer { refusal_in result ≡ refusal_of (scene_of site.old) (call_of (action_of action.now)) }
    ensures after { scene_of site.new ≡ called (scene_of site.old) (call_of (action_of action.now)) }
{
    let (from, to) = (action.from.column, action.to.column);
    match action.work {
        Work::Entry => site.enter(from, action.carry),
        Work::Leave => site.leave(from),
        Work::Wait => Ok(()),
        Work::Move => site.move_to(from, to),
        Work::PickUp => site.lift(from, to),
        Work::Deliver => site.lay(from, to),
    }
}

// A refusal, told of a line.
fn on_line(refusal: Refusal, line: u16) -> Refusal
    ensures { told_of result ≡ on_line line (told_of refusal) }
{
    Refusal { line, ..refusal }
}

// Whether no robot is on the site, and every height is 0.
fn is_fresh<G: Ground>(site: &Site<G>) -> bool
    ensures { result ≡ is_fresh (scene_of site.now) }
{
    site.robots() == 0 && site.blocks_standing() == 0
}

// Plays actions, the time counted from where play began; what is refused is told of its line, and nothing is done after it.
fn play_all<G: Ground>(site: &mut Site<G>, actions: &[Action]) -> Result<(), Refusal>
    ensures answer { refusal_in result ≡ (play (plan_of actions.now) 0 (scene_of site.old)).answer }
    ensures after { scene_of site.new ≡ (play (plan_of actions.now) 0 (scene_of site.old)).site }
{
    let mut time = 0;
    for action in actions {
        let start = action.span.start();
        site.wait(start.saturating_sub(time));
        time = start;
        call(site, action).map_err(|refusal| on_line(refusal, action.line))?;
    }
    site.settle();
    Ok(())
}

// Plays actions on a fresh site; any other stays as it is.
pub(crate) fn play_actions<G: Ground>(site: &mut Site<G>, actions: &[Action]) -> Result<(), Refusal>
    ensures answer { refusal_in result ≡ (play_on (plan_of actions.now) (scene_of site.old)).answer }
    ensures after { scene_of site.new ≡ (play_on (plan_of actions.now) (scene_of site.old)).site }
{
    if !is_fresh(site) {
        return Err(Rule::NotFresh.into());
    }
    play_all(site, actions)
}
