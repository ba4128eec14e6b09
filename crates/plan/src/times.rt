// When a span starts and ends.
ghost use Rattle.std.specs.Prelude.{◌≡◌};
ghost use Rattle.plan.specs.View.{start_of, end_of};

use crate::Span;

impl Span {
    pub fn start(&self) -> u32
        ensures { result ≡ start_of self.now }
    {
        self.start
    }

    pub fn end(&self) -> u32
        ensures { result ≡ end_of self.now }
    {
        self.end
    }
}
