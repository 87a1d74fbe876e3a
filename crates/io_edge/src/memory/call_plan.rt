ghost use Rattle.std.specs.Prelude.{◌≡◌, IfOk};
ghost use Rattle.io_edge.specs.PlannedCalls.{next_fails, one_more};

use std::alloc::{AllocError, Global};
use std::marker::Model;

/// Numbers calls from 1, and says which of them fail. The number stays at its end, 2^64 - 1.
#[derive(Debug, Drop)]
pub(crate) struct CallPlan {
    made: u64,
    failing: Vec<u64>,
}

impl Model for CallPlan {
    ghost use Rattle.io_edge.specs.PlannedCalls.{PlannedCalls};

    ghost Value = { PlannedCalls };

    ghost view = { λ a. record { made = a.made; failing = a.failing.items } };
}

impl CallPlan {
    /// No call was made yet, and those whose numbers are listed will fail.
    pub(crate) fn new(alloc: Global, failing: &[u64]) -> Result<CallPlan, AllocError>
        ensures { IfOk result (λ calls. calls ≡ record { made = 0; failing = failing.now }) }
    {
        Ok(CallPlan {
            made: 0,
            failing: Vec::from_slice(alloc, failing)?,
        })
    }

    /// Numbers the next call, and answers whether it fails.
    pub(crate) fn next_fails(&mut self) -> bool
        ensures answer { result ≡ next_fails self.old }
        ensures after { self.new ≡ one_more self.old }
    {
        self.made = self.made.saturating_add(1);
        let number = self.made;
        self.failing.iter().any(|n| *n == number)
    }
}
