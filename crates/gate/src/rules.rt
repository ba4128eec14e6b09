// The rules that the gate checks for each call, in rising order.
ghost use Rattle.std.specs.Prelude.{◌≡◌, if◌then◌else◌, Ok, Err, IfOk};
ghost use Rattle.terms.specs.Refusals.{first_of};
ghost use Rattle.terms.specs.declared.refusal.Rule.TheVariants.{NoColumn};
ghost use Rattle.gate.specs.declared.call.Call.TheVariants.{Enter, Move, Leave};
ghost use Rattle.gate.specs.Scene.{at};
ghost use Rattle.gate.specs.Gate.{refusal, change_tests, lay_tests, lift_tests, off};
ghost use Rattle.gate.specs.View.{scene_of, ruled};

use crate::column::Column;
use crate::site::Site;
use ground::{Ground, is_linked};
use terms::Rule;
use ways::is_near;

// Refuses by a rule, unless what it asks holds.
fn ensure(holds: bool, rule: Rule) -> Result<(), Rule>
    ensures { result ≡ (if holds then Ok tt else Err rule) }
{
    if holds { Ok(()) } else { Err(rule) }
}

impl<G: Ground> Site<G> {
    // A column of the ground.
    fn column(&self, column: u16) -> Result<Column, Rule>
        ensures { result ≡ (if off (scene_of self.now).meaning column then Err NoColumn else Ok (at (scene_of self.now).columns column)) }
    {
        ensure(column < self.floor.columns(), Rule::NoColumn)?;
        Ok(self.look(column))
    }

    pub(crate) fn may_enter(&self, column: u16, block: bool) -> Result<(), Rule>
        ensures { ruled result ≡ refusal (scene_of self.now) (Enter column block) }
    {
        let here = self.column(column)?;
        ensure(self.floor.is_border(column), Rule::NoLink)?;
        ensure(!here.state.is_held(), Rule::ColumnHeld)?;
        ensure(
            self.robots() < u16::from(self.settings.robots()),
            Rule::SiteFull,
        )
    }

    pub(crate) fn may_move(&self, from: u16, to: u16) -> Result<(), Rule>
        ensures { ruled result ≡ refusal (scene_of self.now) (Move from to) }
    {
        let here = self.column(from)?;
        let there = self.column(to)?;
        ensure(here.state.stands(), Rule::NoStandingRobot)?;
        ensure(is_linked(&self.floor, from, to), Rule::NoLink)?;
        ensure(!there.state.is_held(), Rule::ColumnHeld)?;
        ensure(is_near(here.height, there.height), Rule::WrongHeights)
    }

    // What a lay and a lift ask alike: a robot that stands there, with a block or without, and a free column inside to work on.
    fn may_change(&self, from: u16, to: u16, block: bool) -> Result<(Column, Column), Rule>
        ensures rule { ruled result ≡ first_of (change_tests (scene_of self.now).meaning (scene_of self.now).columns block from to) }
        ensures columns { IfOk result (λ both. both ≡ (at (scene_of self.now).columns from, at (scene_of self.now).columns to)) }
    {
        let here = self.column(from)?;
        let there = self.column(to)?;
        ensure(here.state.stands(), Rule::NoStandingRobot)?;
        ensure(here.state.has_block() == block, Rule::WrongLoad)?;
        ensure(
            is_linked(&self.floor, from, to) && !self.floor.is_border(to),
            Rule::NoLink,
        )?;
        ensure(!there.state.is_held(), Rule::ColumnHeld)?;
        Ok((here, there))
    }

    pub(crate) fn may_lay(&self, from: u16, to: u16) -> Result<(), Rule>
        ensures { ruled result ≡ first_of (lay_tests (scene_of self.now).meaning (scene_of self.now).settings (scene_of self.now).columns from to) }
    {
        let (here, there) = self.may_change(from, to, true)?;
        let is_below_top = u16::from(there.height) + 1 < u16::from(self.settings.levels());
        ensure(
            here.height == there.height && is_below_top,
            Rule::WrongHeights,
        )
    }

    pub(crate) fn may_lift(&self, from: u16, to: u16) -> Result<(), Rule>
        ensures { ruled result ≡ first_of (lift_tests (scene_of self.now).meaning (scene_of self.now).columns from to) }
    {
        let (here, there) = self.may_change(from, to, false)?;
        ensure(
            u16::from(there.height) == u16::from(here.height) + 1,
            Rule::WrongHeights,
        )
    }

    pub(crate) fn may_leave(&self, column: u16) -> Result<(), Rule>
        ensures { ruled result ≡ refusal (scene_of self.now) (Leave column) }
    {
        let here = self.column(column)?;
        ensure(here.state.stands(), Rule::NoStandingRobot)?;
        ensure(self.floor.is_border(column), Rule::NoLink)
    }
}
