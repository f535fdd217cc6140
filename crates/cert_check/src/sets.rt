//! The sets of states after traces, one step at a time.
ghost use Rattle.std.specs.Prelude.{◌≡◌, ℕ, ◌<◌, ◌↔◌, [], All, IsTrue, OnOk, IfOk};
ghost use Rattle.lts_base.specs.System.{IsItemOf, IsQuiet, HasMove};
ghost use Rattle.lts_base.specs.After.{IsSetAfter};
ghost use Rattle.lts_base.specs.Next.{IsNext};
ghost use Rattle.lts_base.specs.Path.{Leads, IsSeen};
ghost use Rattle.lts_base.specs.Finds.{Adds, AreReached};

use crate::marks::Marks;
use crate::moves::spread;
use crate::side::Side;
use lts_base::{Act, Item, Lts, Memory};
use std::alloc::Global;

/// The set after the empty trace, in ascending order. What the marks held before is forgotten.
pub fn opening_of(alloc: Global, lts: &Lts, marks: &mut Marks) -> Result<Vec<u32>, Memory>
    requires states { marks.old.states ≡ lts.now.states }
    ensures states { marks.new.states ≡ marks.old.states }
    ensures opening { IfOk result (λ v. IsSetAfter lts.now [] v.items) }
    ensures within { IfOk result (λ v. All (λ (q : ℕ). q < lts.now.states) v.items) }
{
    marks.clear();
    let start = lts.start();
    marks.add(start)?;
    close(lts, marks)?;
    let states = marks.sorted(alloc)?;
    Ok(states)
}

/// The states that the item, and then moves with Tau, reach from the list, in ascending order. What
/// the marks held before is forgotten.
pub fn next_of(
    alloc: Global,
    side: &Side,
    marks: &mut Marks,
    list: &[u32],
    item: Item,
) -> Result<Vec<u32>, Memory>
    requires states { marks.old.states ≡ side.now.states }
    requires list { All (λ (q : ℕ). q < side.now.states) list.now }
    requires item { IsItemOf side.now item }
    ensures states { marks.new.states ≡ marks.old.states }
    ensures next { IfOk result (λ v. IsNext side.now item list.now v.items) }
    ensures within { IfOk result (λ v. All (λ (q : ℕ). q < side.now.states) v.items) }
{
    marks.clear();
    see(side, marks, list, item)?;
    close(side.lts(), marks)?;
    let states = marks.sorted(alloc)?;
    Ok(states)
}

/// Finds the states that one step from the list, seen as the item, leads to.
fn see(side: &Side, marks: &mut Marks, list: &[u32], item: Item) -> Result<(), Memory>
    requires states { marks.old.states ≡ side.now.states }
    requires found { marks.old.found ≡ [] }
    requires list { All (λ (q : ℕ). q < side.now.states) list.now }
    requires item { IsItemOf side.now item }
    ensures states { marks.new.states ≡ marks.old.states }
    ensures seen { OnOk result (AreReached (λ p r. IsSeen side.now p item r) list.now marks.new.found) }
{
    'states: for state in list {
        step(side, marks, *state, item)?;
    }
    Ok(())
}

/// Adds the states that one step from the state, seen as the item, leads to.
fn step(side: &Side, marks: &mut Marks, state: u32, item: Item) -> Result<(), Memory>
    requires states { marks.old.states ≡ side.now.states }
    requires state { state < side.now.states }
    requires item { IsItemOf side.now item }
    ensures states { marks.new.states ≡ marks.old.states }
    ensures adds { OnOk result (Adds (IsSeen side.now state item) marks.old.found marks.new.found) }
{
    match item {
        Item::Input(label) => spread(side.lts(), marks, state, Act::Label(label))?,
        Item::Output(label) => spread(side.lts(), marks, state, Act::Label(label))?,
        Item::Delta => rest(side, marks, state)?,
    }
    Ok(())
}

/// Adds the state if it is quiet.
fn rest(side: &Side, marks: &mut Marks, state: u32) -> Result<(), Memory>
    requires states { marks.old.states ≡ side.now.states }
    requires state { state < side.now.states }
    ensures states { marks.new.states ≡ marks.old.states }
    ensures adds { OnOk result (Adds (λ r. IsQuiet side.now state × (state ≡ r)) marks.old.found marks.new.found) }
{
    if side.is_quiet(state) {
        marks.add(state)?;
    }
    Ok(())
}

/// Adds all states that moves with Tau lead to from those found.
fn close(lts: &Lts, marks: &mut Marks) -> Result<(), Memory>
    requires states { marks.old.states ≡ lts.now.states }
    ensures states { marks.new.states ≡ marks.old.states }
    ensures closure { OnOk result (AreReached (λ r q. Leads lts.now r [] q) marks.old.found marks.new.found) }
{
    let mut at = 0;
    'finds: while at < marks.len() {
        let state = marks.at(at);
        spread(lts, marks, state, Act::Tau)?;
        at += 1;
    }
    Ok(())
}
