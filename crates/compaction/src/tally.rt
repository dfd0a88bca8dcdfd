//! A count of widths that are supplied for cells.

ghost use Rattle.std.specs.Prelude.{◌≡◌, ◌+◌, ◌^◌, ◌<◌, ◌≤◌, length};
ghost use Rattle.compaction.specs.Rows.{wanted_count};

use order_model::Mask;
use std::marker::Model;

/// A count of widths that are supplied for cells.
#[derive(Drop)]
pub struct Tally {
    count: u64,
}

impl Model for Tally {
    ghost use Rattle.std.specs.Prelude.{ℕ};

    ghost Value = { ℕ };

    ghost view = { λ t. t.count };
}

impl Tally {
    pub fn new() -> Tally
        ensures { result ≡ 0 }
    {
        Tally { count: 0 }
    }

    pub fn count(&self) -> u64
        ensures { result ≡ self.now }
    {
        self.count
    }

    /// Adds the number of widths that are needed.
    pub(crate) fn add_wanted(&mut self, needed: &[Mask])
        requires few { length needed.now ≤ 2 ^ 20 }
        requires room { self.old + wanted_count needed.now < 2 ^ 64 }
        ensures { self.new ≡ self.old + wanted_count needed.now }
    {
        for wanted in needed {
            self.count += u64::from(wanted.count_ones());
        }
    }

    pub fn add(&mut self, more: u64)
        requires { self.old + more < 2 ^ 64 }
        ensures { self.new ≡ self.old + more }
    {
        self.count += more;
    }
}
