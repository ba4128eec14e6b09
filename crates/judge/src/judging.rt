// Judging a sheet.
ghost use Rattle.std.specs.Prelude.{◌≡◌, length, is_ok, Decides, IfOk};
ghost use Rattle.terms.specs.Refusals.{Answers, Settles, first_of, from_on, refusal_in};
ghost use Rattle.terms.specs.View.{settings_of};
ghost use Rattle.plan.specs.Rules.{LinesStand, written_plan, target_of};
ghost use Rattle.plan.specs.View.{plan_of};
ghost use Rattle.sheet.specs.Gathered.{IsSheet};
ghost use Rattle.sheet.specs.View.{records_in};
ghost use Rattle.judge.specs.Figures.{Computed, Figures};
ghost use Rattle.judge.specs.Finding.{Settled};
ghost use Rattle.judge.specs.Judging.{end_tests, judging_refusal, tests_at};
ghost use Rattle.judge.specs.Reasons.{judging_reasons};
ghost use Rattle.judge.specs.Verdict.{Accepts, Keeps};

use crate::actions::Actions;
use crate::end::{first_left_behind, first_missed};
use crate::figures::{costs, latest_end};
use crate::room::MOST_ACTIONS;
use crate::rules::judge_line;
use crate::{Accepted, Room};
use ground::Ground;
use plan::Action;
use sheet::{Sheet, Target, read_sheet};
use terms::{Refusal, Reserve, Rule, Settings};

// The actions that the lines of a sheet stand for, or the first rule that a line breaks.
// Ground and settings come apart, as the public `judge` is given them.
fn judge_lines<G: Ground>(
    ground: &G,
    settings: &Settings,
    sheet: &Sheet,
    room: Reserve<Action, MOST_ACTIONS>,
) -> Result<Actions, Refusal>
    ensures { Answers (first_of (from_on (tests_at (G.Ground.meaning ground.now) (settings_of settings.now) sheet.now.acts.items) 0 (length sheet.now.acts.items))) (λ a. (plan_of a.list.items ≡ written_plan sheet.now.acts.items) × Settled (G.Ground.meaning ground.now) (plan_of a.list.items)) result }
{
    let mut above = Actions::none(room);
    for line in &sheet.acts {
        let action = judge_line(ground, settings, &above, line)?;
        above.push(action);
    }
    Ok(above)
}

// Refuses a plan by the first rule that it breaks at the end of its sheet, if it breaks one.
fn judge_end<G: Ground>(ground: &G, actions: &Actions, sheet: &Sheet) -> Result<(), Refusal>
    ensures { Settled (G.Ground.meaning ground.now) (plan_of actions.now.list.items) → refusal_in result ≡ first_of (end_tests (G.Ground.meaning ground.now) (plan_of actions.now.list.items) (target_of sheet.now.targets.items) sheet.now.lines) }
{
    if let Some(line) = first_left_behind(actions) {
        return Err(Refusal::at(Rule::LeftBehind, line, 0));
    }
    let (columns, end) = (ground.columns(), latest_end(actions.list.as_slice()));
    if let Some(column) = first_missed(columns, actions, sheet.targets.as_slice(), end) {
        return Err(Refusal::at(Rule::TargetMissed, sheet.lines, column));
    }
    Ok(())
}

// An accepted plan, with its figures.
fn accept(actions: Actions, targets: Vec<Target>) -> Accepted
    ensures plan { (result.plan ≡ plan_of actions.list.items) × (result.targets ≡ targets.items) }
    ensures computed { Computed result.plan result.makespan result.costs result.most }
    ensures figures { Figures result.plan result.makespan result.costs result.most }
{
    let plan = actions.list.as_slice();
    let makespan = latest_end(plan);
    let costs = costs(&actions);
    let most = actions.most;
    Accepted {
        actions: actions.list,
        targets,
        makespan,
        costs,
        most,
    }
}

// Judges a sheet for a ground and settings: an accepted plan with its figures, or the first broken rule.
pub fn judge<G: Ground>(
    ground: &G,
    settings: &Settings,
    sheet: &[u8],
    room: Room,
) -> Result<Accepted, Refusal>
    ensures value { Answers (judging_refusal (G.Ground.meaning ground.now) (settings_of settings.now) sheet.now) (λ a. Accepts (records_in sheet.now) a) result }
    ensures words { Settles (judging_reasons (G.Ground.meaning ground.now) (settings_of settings.now) sheet.now) (refusal_in result) }
    ensures rules { Decides (is_ok result) (Keeps (G.Ground.meaning ground.now) (settings_of settings.now) sheet.now) }
    ensures lines { LinesStand }
    ensures gathers { IfOk result (λ _. IsSheet sheet.now (records_in sheet.now)) }
{
    let Room { reading, actions } = room;
    let read = read_sheet(ground, settings, sheet, reading)?;
    let actions = judge_lines(ground, settings, &read, actions)?;
    judge_end(ground, &actions, &read)?;
    Ok(accept(actions, read.targets))
}
