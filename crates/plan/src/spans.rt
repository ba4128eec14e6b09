// Making spans, and which timesteps they hold.
ghost use Rattle.std.specs.Prelude.{◌≡◌, ℕ, ◌-◌, ◌≤◌, Decides, MatchOption};
ghost use Rattle.plan.specs.Times.{Holds, held};
ghost use Rattle.plan.specs.View.{start_of, end_of};

use crate::Span;

impl Span {
    // The span from a start to an end after it.
    pub fn new(start: u32, end: u32) -> Option<Span>
        ensures { MatchOption result (end ≤ start) (λ s. (start_of s ≡ start) × (end_of s ≡ end)) }
    {
        // An `if`, and no `then`: a closure does not know that the test held, and the span is ordered by it.
        if start < end {
            Some(Span { start, end })
        } else {
            None
        }
    }

    // How many timesteps it holds.
    pub fn cost(&self) -> u32
        ensures { result ≡ end_of self.now - start_of self.now }
    {
        self.end - self.start
    }

    // Whether it holds a timestep.
    pub fn holds(&self, time: u32) -> bool
        ensures { result ≡ held (start_of self.now) (end_of self.now) time }
    {
        (self.start..self.end).contains(&time)
    }

    // Whether some timestep is in both.
    pub fn overlaps(&self, other: &Span) -> bool
        ensures { Decides result ((t : ℕ) × Holds (start_of self.now) (end_of self.now) t × Holds (start_of other.now) (end_of other.now) t) }
    {
        self.start < other.end && other.start < self.end
    }
}
