//! The least way of internal moves to a state that takes an input.
ghost use Rattle.std.specs.Prelude.{◌≡◌, ◌↔◌, ℕ, ◌+◌, ◌<◌, ◌∷◌, ◌++◌, [], List, length, IsTrue, slice_index_or as get_or};
ghost use Rattle.lts_base.specs.System.{Takes};
ghost use Rattle.sim_core.specs.Simulated.{IsLeastWay};
ghost use Rattle.sim_core.specs.Gone.{CanTake};
ghost use Rattle.sim_core.specs.Search.{HasSearched};

use crate::among::Among;
use crate::draw::count_open;
use crate::finds::FoundStates;
use lts_base::{Act, Lts};

/// The state that takes the input at the end of the least way of internal moves.
pub(crate) fn least_taker(lts: &Lts, finds: &mut FoundStates, from: u32, input: u32) -> u32
    requires from { from < lts.now.states }
    requires states { finds.old.states ≡ lts.now.states }
    requires found { finds.old.found ≡ [] }
    requires able { CanTake lts.now input from }
    ensures inside { result < lts.now.states }
    ensures least { (rs : List ℕ) × IsLeastWay lts.now input from rs result }
    ensures states { finds.new.states ≡ finds.old.states }
    ensures found { finds.new.found ≡ [] }
{
    finds.add(from);
    let taker = first_taker(lts, finds, from, input);
    finds.clear();
    taker
}

/// The first find that takes the input, in a search by breadth from the only one so far.
fn first_taker(lts: &Lts, finds: &mut FoundStates, from: u32, input: u32) -> u32
    requires from { from < lts.now.states }
    requires states { finds.old.states ≡ lts.now.states }
    requires found { finds.old.found ≡ from ∷ [] }
    requires able { CanTake lts.now input from }
    ensures inside { result < lts.now.states }
    ensures least { (rs : List ℕ) × IsLeastWay lts.now input from rs result }
    ensures states { finds.new.states ≡ finds.old.states }
{
    let mut at = 0;
    'finds: loop {
        let state = finds.at(at);
        if test_takes(lts, state, input) {
            return state;
        }
        add_targets(lts, finds, at);
        at += 1;
    }
}

/// Adds the states to which internal moves lead from the find at this place, in their order.
fn add_targets(lts: &Lts, finds: &mut FoundStates, at: usize)
    requires states { finds.old.states ≡ lts.now.states }
    requires at { at < length finds.old.found }
    ensures states { finds.new.states ≡ finds.old.states }
    ensures grows { (more : List ℕ) × (finds.new.found ≡ finds.old.found ++ more) }
    ensures searched { (p : ℕ) → HasSearched lts.now p finds.old.found at → HasSearched lts.now p finds.new.found (at + 1) }
{
    let state = finds.at(at);
    let moves = lts.moves_of(state);
    'moves: for m in moves {
        match m.act {
            Act::Tau => finds.add(m.to),
            Act::Label(_) => {}
        }
    }
}

/// Whether a move with the label leaves the state.
fn test_takes(lts: &Lts, state: u32, label: u32) -> bool
    requires { state < lts.now.states }
    ensures { IsTrue result ↔ Takes lts.now state label }
{
    count_open(lts.moves_of(state), Among::Only(label)) > 0
}
