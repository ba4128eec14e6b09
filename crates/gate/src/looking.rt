// Looking at a site, which alters nothing.
ghost use Rattle.std.specs.Prelude.{◌≡◌};
ghost use Rattle.gate.specs.Scene.{at, robots, blocks_standing, blocks_carried};
ghost use Rattle.gate.specs.View.{scene_of};
ghost use Rattle.terms.specs.View.{settings_of};

use crate::column::Column;
use crate::site::Site;
use ground::Ground;
use terms::Settings;

impl<G: Ground> Site<G> {
    // The ground of the site.
    pub fn ground(&self) -> &G
        ensures { G.Ground.meaning result.now ≡ (scene_of self.now).meaning }
    {
        &self.floor
    }

    // The settings that the site was opened with.
    pub fn settings(&self) -> &Settings
        ensures { settings_of result.now ≡ (scene_of self.now).settings }
    {
        &self.settings
    }

    // The height of a column and what is at it; past the columns all is free, at height 0.
    pub fn look(&self, column: u16) -> Column
        ensures { result ≡ at (scene_of self.now).columns column }
    {
        self.columns
            .get(usize::from(column))
            .copied()
            .unwrap_or_default()
    }

    // How many robots are on the site, each from its granted enter until its leave ends.
    pub fn robots(&self) -> u16
        ensures { result ≡ robots (scene_of self.now).meaning (scene_of self.now).columns }
    {
        let robots = self.columns.iter().filter(|here| here.state.has_robot());
        robots.count() as u16
    }

    // How many blocks stand on the site.
    pub fn blocks_standing(&self) -> u32
        ensures { result ≡ blocks_standing (scene_of self.now).meaning (scene_of self.now).columns }
    {
        let heights = self.columns.iter().map(|here| u32::from(here.height));
        heights.sum()
    }

    // How many robots on the site have a block.
    pub fn blocks_carried(&self) -> u16
        ensures { result ≡ blocks_carried (scene_of self.now).meaning (scene_of self.now).columns }
    {
        let loaded = self.columns.iter().filter(|here| here.state.has_block());
        loaded.count() as u16
    }
}
