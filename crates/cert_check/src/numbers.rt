//! Sets of numbers.
ghost use Rattle.std.specs.Prelude.{◌≡◌, ◌↔◌, [], IsTrue, IfOk, OnOk, Contains};
ghost use Rattle.cert_check.specs.Numbers.{Enters};

use lts_base::Memory;
use std::alloc::Global;
use std::collections::BTreeSet;
use std::marker::Model;

/// A set of numbers, kept in order: to ask or to insert takes a time that grows with the logarithm
/// of its size, whatever the numbers are.
#[derive(Drop)]
pub struct Numbers {
    set: BTreeSet<u64>,
}

impl Model for Numbers {
    ghost use Rattle.std.specs.Prelude.{List, ℕ};

    ghost Value = { List ℕ };

    ghost view = { λ a. a.set.keys };
}

impl Numbers {
    /// The empty set.
    pub fn new(alloc: Global) -> Numbers
        ensures { result ≡ [] }
    {
        Numbers {
            set: BTreeSet::new(alloc),
        }
    }

    /// Whether the set has the number.
    pub fn has(&self, number: u64) -> bool
        ensures { IsTrue result ↔ Contains self.now number }
    {
        self.set.contains(&number)
    }

    /// Inserts the number, and tells whether it is new.
    pub fn insert(&mut self, number: u64) -> Result<bool, Memory>
        ensures fresh { IfOk result (λ fresh. IsTrue fresh ↔ ¬ Contains self.old number) }
        ensures enters { OnOk result (Enters self.old number self.new) }
    {
        let fresh = self.set.insert(number)?;
        Ok(fresh)
    }
}
