//! Calls, numbered from 1, of which chosen ones fail.
ghost use Rattle.std.specs.Prelude.{◌≡◌, ◌↔◌, ◌+◌, Contains, IsTrue};
ghost use Rattle.diag_edge.specs.InMemory.{Calls, IsNextFailing, after_call, no_calls};

use std::marker::Model;

#[derive(Drop)]
pub(crate) struct NumberedCalls {
    failing: Vec<u64>,
    made: u64,
}

impl Model for NumberedCalls {
    ghost Value = { Calls };

    ghost view = { λ calls. record { failing = calls.failing.items; made = calls.made } };
}

impl NumberedCalls {
    pub(crate) fn new(failing: Vec<u64>) -> Self
        ensures { result ≡ no_calls failing.items }
    {
        NumberedCalls { failing, made: 0 }
    }

    /// Counts one more call, and returns whether it fails. The count stops at the greatest u64: a call past it has a number that
    /// cannot be in `failing`, so it never fails.
    pub(crate) fn next_fails(&mut self) -> bool
        ensures fails { IsTrue result ↔ IsNextFailing self.old }
        ensures counted { self.new ≡ after_call self.old }
    {
        let fails = has_next(&self.failing, self.made);
        self.made = self.made.saturating_add(1);
        fails
    }
}

fn has_next(failing: &[u64], made: u64) -> bool
    ensures { IsTrue result ↔ Contains failing.now (made + 1) }
{
    made < u64::MAX && failing.contains(&(made + 1))
}
