//! The calls of a form in memory, and which of them fail.
ghost use Rattle.std.specs.Prelude.{◌≡◌, ◌≤◌};
ghost use Rattle.ds_io.specs.Memory.{fresh, is_due};
ghost use Rattle.ds_io.specs.Faults.{next_count};

use ds_base::Numbers;
use std::marker::Model;

/// Counts calls and faults, and says which calls fail: those whose numbers it was made with, where the first call is
/// 1. Both counts stay at 2^64 - 1, their last value.
#[derive(Drop)]
pub struct Schedule {
    calls: u64,
    fails: Numbers,
    faults: u64,
}

impl Model for Schedule {
    ghost use Rattle.ds_io.specs.Memory.{ScheduleParts};

    ghost Value = { ScheduleParts };

    ghost view = { λ s. record { calls = s.calls; fails = s.fails; faults = s.faults } };
}

impl Schedule {
    /// Before the first call. It takes no memory.
    pub fn new(fails: Numbers) -> Schedule
        ensures { result ≡ fresh fails }
    {
        Schedule {
            calls: 0,
            fails,
            faults: 0,
        }
    }

    /// Counts one more call, and says whether it is one that fails.
    pub fn begin(&mut self) -> bool
        ensures due { result ≡ is_due self.old }
        ensures calls { self.new.calls ≡ next_count self.old.calls }
        ensures fails { self.new.fails ≡ self.old.fails }
        ensures faults { self.new.faults ≡ self.old.faults }
    {
        self.calls = self.calls.saturating_add(1);
        let number = self.calls;
        self.fails.as_slice().iter().any(|fail| *fail == number)
    }

    /// Counts one more fault.
    pub fn raise(&mut self)
        ensures calls { self.new.calls ≡ self.old.calls }
        ensures fails { self.new.fails ≡ self.old.fails }
        ensures faults { self.new.faults ≡ next_count self.old.faults }
        ensures faults_stay_counted { self.old.faults ≤ self.new.faults }
    {
        self.faults = self.faults.saturating_add(1);
    }
}
