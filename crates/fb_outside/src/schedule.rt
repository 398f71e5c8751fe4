ghost use Rattle.std.specs.Prelude.{◌≡◌, ◌≤◌, IfOk, IsSome, map};
ghost use Rattle.fb_outside.specs.Causes.{Rose};

use crate::fail_at::{FailAt, fault_in, plain_fails};
use std::alloc::{AllocError, Global};
use std::marker::Model;

/// Which calls of an object in memory fail, and how many calls and faults there were.
#[derive(Debug, Drop)]
pub(crate) struct Schedule {
    fails: Vec<FailAt>,
    calls: u64,
    faults: u64,
}

impl Model for Schedule {
    ghost use Rattle.fb_outside.specs.Memory.{Counted};

    ghost Value = { Counted };

    ghost view = { λ s. record { fails = s.fails.items; calls = s.calls; faults = s.faults } };
}

impl Schedule {
    ghost use Rattle.fb_outside.specs.Memory.{uncalled, called, next_fault, plain_fail};

    pub(crate) fn make(alloc: Global, fails: &[FailAt]) -> Result<Schedule, AllocError>
        ensures { IfOk result (λ s. s ≡ uncalled fails.now) }
    {
        let fails = Vec::from_slice(alloc, fails)?;
        Ok(Schedule {
            fails,
            calls: 0,
            faults: 0,
        })
    }

    /// Of plain failures at these calls.
    pub(crate) fn at_calls(alloc: Global, calls: &[u64]) -> Result<Schedule, AllocError>
        ensures { IfOk result (λ s. s ≡ uncalled (map plain_fail calls.now)) }
    {
        let fails = plain_fails(alloc, calls)?;
        Ok(Schedule {
            fails,
            calls: 0,
            faults: 0,
        })
    }

    /// Whether the call that comes next fails, and then whether it leaves the new bytes.
    pub(crate) fn next(&self) -> Option<bool>
        ensures { result ≡ next_fault self.now }
    {
        fault_in(self.fails.as_slice(), self.calls)
    }

    /// Counts one more call. Answers whether it fails, and then whether it leaves the new bytes.
    pub(crate) fn count(&mut self) -> Option<bool>
        ensures fault { result ≡ next_fault self.old }
        ensures after { self.new ≡ called self.old }
        ensures later { self.old.faults ≤ self.new.faults }
        ensures rose { IsSome result → Rose self.old.faults self.new.faults }
        ensures told { (IsSome result → ⊥) → self.new.faults ≡ self.old.faults }
    {
        let fault = self.next();
        self.calls = self.calls.saturating_add(1);
        if fault.is_some() {
            self.faults = self.faults.saturating_add(1);
        }
        fault
    }
}
