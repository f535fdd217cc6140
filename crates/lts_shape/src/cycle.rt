//! Cycles of moves with Tau.
ghost use Rattle.std.specs.Prelude.{◌≡◌, ◌↔◌, ℕ, ◌+◌, ◌^◌, ◌<◌, [], None, length, All, Contains, IfOk, MatchOption, slice_index_or as get_or};
ghost use Rattle.lts_base.specs.Shape.{IsConvergent};
ghost use Rattle.lts_shape.specs.Cycle.{IsTauCycle, AreSources, IsTrail, IsTurned};
ghost use Rattle.lts_shape.specs.Peel.{IsPeeled};

use crate::peel::peel;
use lts_base::{Act, Lts, Memory, StateList};
use state_sets::Search;
use std::alloc::Global;

/// Looks for a cycle of moves with Tau, also among states that no trace ends at (Tretmans, "Model
/// Based Testing with Labelled Transition Systems", strongly convergent systems). It takes time
/// linear in the states and moves.
pub fn tau_cycle(alloc: Global, lts: &Lts) -> Result<Option<StateList>, Memory>
    ensures found { IfOk result (λ found. MatchOption found (IsConvergent lts.now) (IsTauCycle lts.now)) }
    ensures exact { IfOk result (λ found. (found ≡ None) ↔ IsConvergent lts.now) }
{
    let counts = peel(alloc, lts)?;
    let states = lts.states();
    let Some(state) = first_left(&counts, states) else {
        return Ok(None);
    };
    let cycle = cycle_from(alloc, lts, &counts, state)?;
    Ok(Some(cycle))
}

/// The first state with a count.
fn first_left(counts: &[usize], states: u32) -> Option<u32>
    requires { length counts.now ≡ states }
    ensures { MatchOption result (All (λ (n : ℕ). n ≡ 0) counts.now) (λ q. (q < states) × (0 < get_or counts.now q 0)) }
{
    'states: for state in 0..states {
        if counts[state as usize] > 0 {
            return Some(state);
        }
    }
    None
}

/// For each state that a move with Tau leads to from a state with a count, such a state.
fn sources_of(alloc: Global, lts: &Lts, counts: &[usize]) -> Result<Vec<u32>, Memory>
    requires { length counts.now ≡ lts.now.states }
    ensures { IfOk result (λ v. AreSources lts.now counts.now (length lts.now.moves) v.items) }
{
    let states = lts.states();
    let mut sources = vec![in alloc; 0; states as usize]?;
    let moves = lts.moves();
    'moves: for m in moves {
        match m.act {
            Act::Tau => {
                if counts[m.from as usize] > 0 {
                    sources[m.to as usize] = m.from;
                }
            }
            Act::Label(_) => {}
        }
    }
    Ok(sources)
}

/// A cycle of moves with Tau that is met from the state against the moves.
fn cycle_from(alloc: Global, lts: &Lts, counts: &[usize], state: u32) -> Result<StateList, Memory>
    requires peeled { IsPeeled lts.now counts.now }
    requires state { state < lts.now.states }
    requires count { 0 < get_or counts.now state 0 }
    ensures { IfOk result (IsTauCycle lts.now) }
{
    let states = lts.states();
    let mut search = Search::new(alloc, states)?;
    let again = walk_back(alloc, lts, counts, &mut search, state)?;
    let cycle = turned(alloc, &search, again)?;
    Ok(cycle)
}

/// Finds the states that are met from the state against moves with Tau, until one is met again,
/// and gives that one.
fn walk_back(
    alloc: Global,
    lts: &Lts,
    counts: &[usize],
    search: &mut Search,
    state: u32,
) -> Result<u32, Memory>
    requires peeled { IsPeeled lts.now counts.now }
    requires states { search.old.states ≡ lts.now.states }
    requires found { search.old.found ≡ [] }
    requires state { state < lts.now.states }
    requires count { 0 < get_or counts.now state 0 }
    ensures trail { IfOk result (IsTrail lts.now search.new.found) }
    ensures again { IfOk result (λ again. Contains search.new.found again) }
{
    let sources = sources_of(alloc, lts, counts)?;
    let mut state = state;
    'steps: loop {
        let before = search.len();
        search.add(state)?;
        if search.len() == before {
            return Ok(state);
        }
        state = sources[state as usize];
    }
}

/// The finds from the last one back to the state.
fn turned(alloc: Global, search: &Search, state: u32) -> Result<StateList, Memory>
    requires { Contains search.now.found state }
    ensures { IfOk result (IsTurned search.now.found state) }
{
    let mut cycle = StateList::new(alloc);
    let mut at = search.len();
    'finds: loop {
        at -= 1;
        let found = search.at(at);
        cycle.push(found)?;
        if found == state {
            return Ok(cycle);
        }
    }
}
