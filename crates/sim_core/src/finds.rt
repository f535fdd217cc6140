//! The states that a search has found, with room for all of them.
ghost use Rattle.std.specs.Prelude.{◌≡◌, ◌^◌, ◌<◌, ◌≤◌, [], length, IfOk, slice_index_or as get_or};
ghost use Rattle.sim_core.specs.Search.{IsFound};

use lts_base::Memory;
use std::alloc::Global;
use std::marker::Model;

/// The states found so far, each once, in the order of their finds. All room is taken at first.
#[derive(Drop, Debug)]
pub(crate) struct FoundStates {
    marked: Vec<bool>,
    found: Vec<u32>,
}

impl Model for FoundStates {
    ghost use Rattle.std.specs.Prelude.{◌≤◌, length, vec_capacity};
    ghost use Rattle.lts_base.specs.Finds.{Finds, IsMarked};

    ghost Value = { Finds };

    ghost view = { λ a. record { states = length a.marked.items; found = a.found.items } };

    ghost invariant = { λ a. IsMarked a.marked.items a.found.items × (length a.marked.items ≤ vec_capacity a.found) };
}

impl FoundStates {
    /// Nothing found yet, of so many states.
    pub(crate) fn new(alloc: Global, states: u32) -> Result<FoundStates, Memory>
        ensures states { IfOk result (λ f. f.states ≡ states) }
        ensures found { IfOk result (λ f. f.found ≡ []) }
    {
        let marked = vec![in alloc; false; states as usize]?;
        let found = Vec::with_capacity(alloc, states as usize)?;
        Ok(FoundStates { marked, found })
    }

    /// Forgets what was found.
    pub(crate) fn clear(&mut self)
        ensures states { self.new.states ≡ self.old.states }
        ensures found { self.new.found ≡ [] }
    {
        'finds: while let Some(state) = self.found.pop() {
            self.marked[state as usize] = false;
        }
    }

    /// Adds the state, unless it was found before.
    pub(crate) fn add(&mut self, state: u32)
        requires { state < self.old.states }
        ensures states { self.new.states ≡ self.old.states }
        ensures found { IsFound self.old.found state self.new.found }
    {
        if self.marked[state as usize] {
            return;
        }
        self.found.push_reserved(state);
        self.marked[state as usize] = true;
    }

    /// The find at this place, from 0.
    pub(crate) fn at(&self, place: usize) -> u32
        requires { place < length self.now.found }
        ensures value { result ≡ get_or self.now.found place 0 }
        ensures below { result < self.now.states }
        ensures within { length self.now.found ≤ self.now.states }
        ensures small { self.now.states < 2 ^ 32 }
    {
        self.found[place]
    }
}
