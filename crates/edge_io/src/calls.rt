//! Which calls of a method of an object in memory are to fail.
ghost use Rattle.std.specs.Prelude.{◌≡◌};
ghost use Rattle.edge_io.specs.Rooms.{after_call, fails_next};

use crate::content::Numbers;
use std::marker::Model;

/// The calls of one method.
#[derive(Drop, Debug)]
pub(crate) struct CallCount {
    fails: Numbers,
    made: u64,
}

impl Model for CallCount {
    ghost use Rattle.edge_io.specs.Rooms.{Calls};

    ghost Value = { Calls };

    ghost view = { λ c. record { fails = c.fails; made = c.made } };
}

impl CallCount {
    // The calls whose numbers, counted from 1, stand in `fails` are to fail.
    pub(crate) fn new(fails: Numbers) -> CallCount
        ensures { result ≡ record { fails = fails; made = 0 } }
    {
        CallCount { fails, made: 0 }
    }

    // Counts a call, and answers whether it is to fail.
    pub(crate) fn fails_next(&mut self) -> bool
        ensures fails { result ≡ fails_next self.old }
        ensures after { self.new ≡ after_call self.old }
    {
        self.made = self.made.saturating_add(1);
        self.fails.as_slice().contains(&self.made)
    }
}
