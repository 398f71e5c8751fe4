ghost use Rattle.std.specs.Prelude.{◌≡◌, ◌≤◌};
ghost use Rattle.fb_outside.specs.Causes.{Rose, one_more};

use std::marker::Model;

/// A count of faults, which stands at its last value.
#[derive(Debug, Drop)]
pub(crate) struct Faults {
    count: u64,
}

impl Model for Faults {
    ghost use Rattle.std.specs.Prelude.{ℕ};

    ghost Value = { ℕ };

    ghost view = { λ f. f.count };
}

impl Faults {
    pub(crate) fn none() -> Faults
        ensures { result ≡ 0 }
    {
        Faults { count: 0 }
    }

    pub(crate) fn raise(&mut self)
        ensures one { self.new ≡ one_more self.old }
        ensures rose { Rose self.old self.new }
        ensures later { self.old ≤ self.new }
    {
        self.count = self.count.saturating_add(1);
    }
}
