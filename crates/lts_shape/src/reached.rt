//! The states that end some trace.
ghost use Rattle.std.specs.Prelude.{◌≡◌, ℕ, ◌<◌, length, OnOk, IfOk};
ghost use Rattle.lts_base.specs.declared.action.Act.{Act as TheAct};
ghost use Rattle.lts_base.specs.System.{HasMove};
ghost use Rattle.lts_base.specs.Finds.{Adds};
ghost use Rattle.lts_shape.specs.Inputs.{EndsSome};
ghost use Rattle.lts_shape.specs.Marks.{AreMarks, AreMarksOf};

use lts_base::{Lts, Memory};
use state_sets::Search;
use std::alloc::Global;

/// Marks the states that end some trace: those that moves lead to from the start.
pub(crate) fn reached(alloc: Global, lts: &Lts) -> Result<Vec<bool>, Memory>
    ensures { IfOk result (λ v. AreMarksOf (EndsSome lts.now) lts.now.states v.items) }
{
    let states = lts.states();
    let start = lts.start();
    let mut search = Search::new(alloc, states)?;
    search.add(start)?;
    let mut at = 0;
    'finds: while at < search.len() {
        let state = search.at(at);
        add_targets(lts, &mut search, state)?;
        at += 1;
    }
    let marks = marks_of(alloc, &search, states)?;
    Ok(marks)
}

/// Adds the states that the state's moves lead to.
fn add_targets(lts: &Lts, search: &mut Search, state: u32) -> Result<(), Memory>
    requires states { search.old.states ≡ lts.now.states }
    requires state { state < lts.now.states }
    ensures states { search.new.states ≡ search.old.states }
    ensures adds { OnOk result (Adds (λ q. (act : TheAct) × HasMove lts.now state act q) search.old.found search.new.found) }
{
    let moves = lts.moves_of(state);
    'moves: for m in moves {
        search.add(m.to)?;
    }
    Ok(())
}

/// Marks the finds of a search.
pub(crate) fn marks_of(alloc: Global, search: &Search, states: u32) -> Result<Vec<bool>, Memory>
    requires { search.now.states ≡ states }
    ensures { IfOk result (λ v. AreMarks search.now.found (length search.now.found) states v.items) }
{
    let mut marks = vec![in alloc; false; states as usize]?;
    let mut at = 0;
    'finds: while at < search.len() {
        let state = search.at(at);
        marks[state as usize] = true;
        at += 1;
    }
    Ok(marks)
}
