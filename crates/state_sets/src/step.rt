//! One step from a set of states to the next, as lists of states.
ghost use Rattle.std.specs.Prelude.{◌≡◌, ℕ, ◌<◌, ◌↔◌, [], ◌∷◌, All, IsTrue, OnOk, IfOk, IfSome};
ghost use Rattle.lts_base.specs.System.{IsItemOf, IsQuiet, HasMove};
ghost use Rattle.lts_base.specs.After.{IsSetAfter};
ghost use Rattle.lts_base.specs.Next.{IsNext};
ghost use Rattle.lts_base.specs.Path.{Leads, IsSeen};
ghost use Rattle.lts_base.specs.declared.action.Act.TheVariants.{Tau, Label};
ghost use Rattle.lts_base.specs.Finds.{Adds, AreReached, AreNext};
ghost use Rattle.state_sets.specs.Taus.{AreTauFlags};

use crate::moves::first_from;
use crate::search::Search;
use crate::taus::Taus;
use lts_base::{Act, Item, Lts, Memory, is_quiet};
use std::alloc::Global;

/// The states of the set after the empty trace, in ascending order.
pub fn opening_states(alloc: Global, lts: &Lts, search: &mut Search) -> Result<Vec<u32>, Memory>
    requires states { search.old.states ≡ lts.now.states }
    ensures states { search.new.states ≡ search.old.states }
    ensures opening { IfOk result (λ v. IsSetAfter lts.now [] v.items) }
    ensures within { IfOk result (λ v. All (λ (q : ℕ). q < lts.now.states) v.items) }
{
    search.clear();
    let start = lts.start();
    search.add(start)?;
    close(lts, None, search)?;
    let states = search.sorted(alloc)?;
    Ok(states)
}

/// The states that the item, and then moves with Tau, reach from the members of the set, in
/// ascending order. What the search held before is forgotten.
pub fn next_states(
    alloc: Global,
    lts: &Lts,
    search: &mut Search,
    set: &[u32],
    item: Item,
) -> Result<Vec<u32>, Memory>
    requires states { search.old.states ≡ lts.now.states }
    requires set { All (λ (q : ℕ). q < lts.now.states) set.now }
    requires item { IsItemOf lts.now item }
    ensures states { search.new.states ≡ search.old.states }
    ensures next { IfOk result (λ v. IsNext lts.now item set.now v.items) }
    ensures within { IfOk result (λ v. All (λ (q : ℕ). q < lts.now.states) v.items) }
{
    find_next(lts, None, search, set, item)?;
    let states = search.sorted(alloc)?;
    Ok(states)
}

/// Finds the states that the item, and then moves with Tau, reach from the members of the set.
/// What the search held before is forgotten. With the flags of the system it passes over the moves
/// of stable states that it finds.
pub fn find_next(
    lts: &Lts,
    taus: Option<&Taus>,
    search: &mut Search,
    set: &[u32],
    item: Item,
) -> Result<(), Memory>
    requires states { search.old.states ≡ lts.now.states }
    requires taus { IfSome taus (λ t. AreTauFlags lts.now t.now) }
    requires set { All (λ (q : ℕ). q < lts.now.states) set.now }
    requires item { IsItemOf lts.now item }
    ensures states { search.new.states ≡ search.old.states }
    ensures found { OnOk result (AreNext lts.now item set.now search.new.found) }
{
    search.clear();
    see(lts, search, set, item)?;
    close(lts, taus, search)?;
    Ok(())
}

/// Finds the states that one step, seen as the item, leads to.
fn see(lts: &Lts, search: &mut Search, set: &[u32], item: Item) -> Result<(), Memory>
    requires states { search.old.states ≡ lts.now.states }
    requires found { search.old.found ≡ [] }
    requires set { All (λ (q : ℕ). q < lts.now.states) set.now }
    requires item { IsItemOf lts.now item }
    ensures states { search.new.states ≡ search.old.states }
    ensures seen { OnOk result (AreReached (λ p r. IsSeen lts.now p item r) set.now search.new.found) }
{
    match item {
        Item::Input(label) => along(lts, search, set, label)?,
        Item::Output(label) => along(lts, search, set, label)?,
        Item::Delta => rest(lts, search, set)?,
    }
    Ok(())
}

/// Finds the states that a move with the label leads to.
fn along(lts: &Lts, search: &mut Search, set: &[u32], label: u32) -> Result<(), Memory>
    requires states { search.old.states ≡ lts.now.states }
    requires found { search.old.found ≡ [] }
    requires set { All (λ (q : ℕ). q < lts.now.states) set.now }
    ensures states { search.new.states ≡ search.old.states }
    ensures adds { OnOk result (AreReached (λ p r. HasMove lts.now p (Label label) r) set.now search.new.found) }
{
    'states: for state in set {
        spread(lts, search, *state, Act::Label(label))?;
    }
    Ok(())
}

/// Finds the quiet states.
fn rest(lts: &Lts, search: &mut Search, set: &[u32]) -> Result<(), Memory>
    requires states { search.old.states ≡ lts.now.states }
    requires found { search.old.found ≡ [] }
    requires set { All (λ (q : ℕ). q < lts.now.states) set.now }
    ensures states { search.new.states ≡ search.old.states }
    ensures adds { OnOk result (AreReached (λ p r. IsQuiet lts.now p × (p ≡ r)) set.now search.new.found) }
{
    'states: for state in set {
        add_quiet(lts, search, *state)?;
    }
    Ok(())
}

/// Adds the state if it is quiet.
fn add_quiet(lts: &Lts, search: &mut Search, state: u32) -> Result<(), Memory>
    requires states { search.old.states ≡ lts.now.states }
    requires state { state < lts.now.states }
    ensures states { search.new.states ≡ search.old.states }
    ensures adds { OnOk result (Adds (λ r. IsQuiet lts.now state × (state ≡ r)) search.old.found search.new.found) }
{
    if is_quiet(lts, state) {
        search.add(state)?;
    }
    Ok(())
}

/// Adds all states that moves with Tau lead to from those found.
fn close(lts: &Lts, taus: Option<&Taus>, search: &mut Search) -> Result<(), Memory>
    requires states { search.old.states ≡ lts.now.states }
    requires taus { IfSome taus (λ t. AreTauFlags lts.now t.now) }
    ensures states { search.new.states ≡ search.old.states }
    ensures closure { OnOk result (AreReached (λ r q. Leads lts.now r [] q) search.old.found search.new.found) }
{
    let mut at = 0;
    'finds: while at < search.len() {
        let state = search.at(at);
        spread_tau(lts, taus, search, state)?;
        at += 1;
    }
    Ok(())
}

/// Adds the states that the state's moves with Tau lead to.
fn spread_tau(lts: &Lts, taus: Option<&Taus>, search: &mut Search, state: u32) -> Result<(), Memory>
    requires states { search.old.states ≡ lts.now.states }
    requires taus { IfSome taus (λ t. AreTauFlags lts.now t.now) }
    requires state { state < lts.now.states }
    ensures states { search.new.states ≡ search.old.states }
    ensures adds { OnOk result (Adds (HasMove lts.now state Tau) search.old.found search.new.found) }
{
    if let Some(flags) = taus {
        if !flags.leaves(state) {
            return Ok(());
        }
    }
    spread(lts, search, state, Act::Tau)?;
    Ok(())
}

/// Adds the states that the state's moves with the action lead to.
fn spread(lts: &Lts, search: &mut Search, state: u32, act: Act) -> Result<(), Memory>
    requires states { search.old.states ≡ lts.now.states }
    requires state { state < lts.now.states }
    ensures states { search.new.states ≡ search.old.states }
    ensures adds { OnOk result (Adds (HasMove lts.now state act) search.old.found search.new.found) }
{
    let moves = lts.moves_of(state);
    let from = first_from(moves, act, search.hint(state));
    'moves: for place in from..moves.len() {
        let m = moves[place];
        if !is_same(m.act, act) {
            search.note(state, place);
            return Ok(());
        }
        search.add(m.to)?;
    }
    Ok(())
}

/// Whether two actions are the same.
pub(crate) fn is_same(one: Act, other: Act) -> bool
    ensures { IsTrue result ↔ (one ≡ other) }
{
    match one {
        Act::Tau => match other {
            Act::Tau => true,
            Act::Label(_) => false,
        },
        Act::Label(label) => match other {
            Act::Tau => false,
            Act::Label(number) => label == number,
        },
    }
}
