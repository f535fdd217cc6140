//! The moves by groups: those with Tau by the state that they lead to, the others by their label.
ghost use Rattle.std.specs.Prelude.{◌≡◌, ℕ, ◌+◌, ◌<◌, length, OnOk, IfOk};
ghost use Rattle.lts_base.specs.declared.action.Act.TheVariants.{Tau};
ghost use Rattle.lts_base.specs.System.{HasMove, Takes};
ghost use Rattle.lts_base.specs.Finds.{Adds};
ghost use Rattle.lts_shape.specs.Groups.{AreGroups, LeavesIn, group_count, group_of as group_number};

use lts_base::{Act, Lts, Memory, Move};
use state_sets::Search;
use std::alloc::Global;

/// The moves of each group as a chain from the last one to the first. A move is told by its number
/// from 1; 0 ends the chain. So each group costs as much as it has moves.
#[derive(Drop)]
pub(crate) struct Groups {
    /// For each group, its last move.
    last: Vec<usize>,
    /// For each move, the one before it in its group.
    before: Vec<usize>,
}

/// Chains the moves in one pass.
pub(crate) fn groups_of(alloc: Global, lts: &Lts) -> Result<Groups, Memory>
    ensures { IfOk result (λ g. AreGroups lts.now (length lts.now.moves) g.last.items g.before.items) }
{
    let states = lts.states();
    let labels = lts.inputs() + lts.outputs();
    let moves = lts.moves();
    let mut last = vec![in alloc; 0; states as usize + labels as usize]?;
    let mut before = Vec::with_capacity(alloc, moves.len())?;
    'moves: for (index, m) in moves.iter().enumerate() {
        let group = group_of(states, *m);
        before.push(last[group])?;
        last[group] = index + 1;
    }
    Ok(Groups { last, before })
}

/// The group of a move; those of the labels come after those of the states.
fn group_of(states: u32, m: Move) -> usize
    ensures { result ≡ group_number states m }
{
    match m.act {
        Act::Tau => m.to as usize,
        Act::Label(label) => states as usize + label as usize,
    }
}

/// Adds the states that the group's moves leave.
fn add_group(lts: &Lts, groups: &Groups, search: &mut Search, group: usize) -> Result<(), Memory>
    requires groups { AreGroups lts.now (length lts.now.moves) groups.now.last.items groups.now.before.items }
    requires states { search.old.states ≡ lts.now.states }
    requires group { group < group_count lts.now }
    ensures states { search.new.states ≡ search.old.states }
    ensures adds { OnOk result (Adds (LeavesIn lts.now group) search.old.found search.new.found) }
{
    let moves = lts.moves();
    let mut next = groups.last[group];
    'chain: while next > 0 {
        let number = next - 1;
        search.add(moves[number].from)?;
        next = groups.before[number];
    }
    Ok(())
}

/// Adds the states that have a move with the label.
pub(crate) fn add_takers(
    lts: &Lts,
    groups: &Groups,
    search: &mut Search,
    label: u32,
) -> Result<(), Memory>
    requires groups { AreGroups lts.now (length lts.now.moves) groups.now.last.items groups.now.before.items }
    requires states { search.old.states ≡ lts.now.states }
    requires label { label < lts.now.inputs }
    ensures states { search.new.states ≡ search.old.states }
    ensures adds { OnOk result (Adds (λ q. Takes lts.now q label) search.old.found search.new.found) }
{
    let states = lts.states();
    add_group(lts, groups, search, states as usize + label as usize)?;
    Ok(())
}

/// Adds the states from which a move with Tau leads to the state.
pub(crate) fn add_sources(
    lts: &Lts,
    groups: &Groups,
    search: &mut Search,
    state: u32,
) -> Result<(), Memory>
    requires groups { AreGroups lts.now (length lts.now.moves) groups.now.last.items groups.now.before.items }
    requires states { search.old.states ≡ lts.now.states }
    requires state { state < lts.now.states }
    ensures states { search.new.states ≡ search.old.states }
    ensures adds { OnOk result (Adds (λ p. HasMove lts.now p Tau state) search.old.found search.new.found) }
{
    // the call tells what a system is
    let _ = lts.states();
    add_group(lts, groups, search, state as usize)?;
    Ok(())
}
