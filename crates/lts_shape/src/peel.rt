//! The states that no move with Tau leads to are taken away, one after the other, for as long as
//! there are some. What is left over has a cycle; where nothing is left there is none.
ghost use Rattle.std.specs.Prelude.{◌≡◌, ℕ, ◌+◌, ◌-◌, ◌<◌, ◌≤◌, [], length, take, OnOk, IfOk, set, slice_index_or as get_or};
ghost use Rattle.lts_shape.specs.Peel.{IsPeeling, IsPeeled, IsFoundAtZero, AreCounts, AreZeros};

use lts_base::{Act, Lts, Memory};
use state_sets::Search;
use std::alloc::Global;

/// For each state, how many moves with Tau lead to it from states that can't be taken away.
pub(crate) fn peel(alloc: Global, lts: &Lts) -> Result<Vec<usize>, Memory>
    ensures { IfOk result (λ v. IsPeeled lts.now v.items) }
{
    let states = lts.states();
    let mut counts = counts_of(alloc, lts)?;
    let mut search = Search::new(alloc, states)?;
    find_first(&counts, &mut search, states)?;
    let mut at = 0;
    'finds: while at < search.len() {
        take_away(lts, &mut counts, &mut search, at)?;
        at += 1;
    }
    Ok(counts)
}

/// How many moves with Tau lead to each state.
fn counts_of(alloc: Global, lts: &Lts) -> Result<Vec<usize>, Memory>
    ensures { IfOk result (λ v. AreCounts lts.now.states lts.now.moves v.items) }
{
    let states = lts.states();
    let mut counts = vec![in alloc; 0; states as usize]?;
    let moves = lts.moves();
    'moves: for m in moves {
        match m.act {
            Act::Tau => counts[m.to as usize] += 1,
            Act::Label(_) => {}
        }
    }
    Ok(counts)
}

/// Finds the states that no move with Tau leads to.
fn find_first(counts: &[usize], search: &mut Search, states: u32) -> Result<(), Memory>
    requires states { search.old.states ≡ states }
    requires counts { length counts.now ≡ states }
    requires found { search.old.found ≡ [] }
    ensures states { search.new.states ≡ search.old.states }
    ensures found { OnOk result (AreZeros counts.now states search.new.found) }
{
    'states: for state in 0..states {
        if counts[state as usize] == 0 {
            search.add(state)?;
        }
    }
    Ok(())
}

/// Takes away the find at this place, and finds the states that no move with Tau leads to then.
fn take_away(
    lts: &Lts,
    counts: &mut Vec<usize>,
    search: &mut Search,
    at: usize,
) -> Result<(), Memory>
    requires states { search.old.states ≡ lts.now.states }
    requires at { at < length search.old.found }
    requires peeling { IsPeeling lts.now (take at search.old.found) [] counts.old.items search.old.found }
    ensures states { search.new.states ≡ search.old.states }
    ensures peeling { OnOk result (IsPeeling lts.now (take (at + 1) search.new.found) [] counts.new.items search.new.found) }
    ensures at { OnOk result (at < length search.new.found) }
{
    let state = search.at(at);
    let moves = lts.moves_of(state);
    'moves: for m in moves {
        match m.act {
            Act::Tau => lower(counts, search, m.to)?,
            Act::Label(_) => {}
        }
    }
    Ok(())
}

/// Lowers the state's count by 1, and finds the state where no count is left.
fn lower(counts: &mut Vec<usize>, search: &mut Search, state: u32) -> Result<(), Memory>
    requires states { search.old.states ≡ length counts.old.items }
    requires state { state < length counts.old.items }
    requires count { 0 < get_or counts.old.items state 0 }
    ensures states { search.new.states ≡ search.old.states }
    ensures counts { OnOk result (counts.new.items ≡ set counts.old.items state (get_or counts.old.items state 0 - 1)) }
    ensures found { OnOk result (IsFoundAtZero (get_or counts.old.items state 0 - 1) search.old.found state search.new.found) }
{
    let count = counts[state as usize] - 1;
    counts[state as usize] = count;
    if count == 0 {
        search.add(state)?;
    }
    Ok(())
}
