//! The labels that the members of a set take, by passes over their moves. A pass costs as much as
//! the set, its moves and the labels.
ghost use Rattle.std.specs.Prelude.{◌≡◌, ◌↔◌, ◌<◌, ◌-◌, ◌^◌, ℕ, length, All, IfOk, IsTrue};
ghost use Rattle.lts_base.specs.After.{AllStableTake};
ghost use Rattle.lts_base.specs.System.{IsStable, Takes, label_count};
ghost use Rattle.state_sets.specs.Finds.{IsTakenIn};
ghost use Rattle.cmd_outs.specs.Taken.{AreFlags, AreFronts, IsAdvanced, HasToTake, AllTake, IsMarked, IsHeld};

use lts_base::{Act, Lts, Memory, Mode};
use std::alloc::Global;

/// For each label, after how many of the members that have to take the inputs one doesn't.
#[derive(Drop, Debug)]
struct Fronts {
    /// For each label, how many of those members take it, counted up to the first that doesn't.
    fronts: Vec<usize>,
    /// How many such members there are.
    count: usize,
}

/// For each label, whether a move with it leaves some member.
pub(crate) fn taken_labels(alloc: Global, lts: &Lts, set: &[u32]) -> Result<Vec<bool>, Memory>
    requires { All (λ (q : ℕ). q < lts.now.states) set.now }
    ensures { IfOk result (λ v. AreFlags lts.now (IsTakenIn lts.now set.now) v.items) }
{
    let labels = lts.inputs() + lts.outputs();
    let mut taken = vec![in alloc; false; labels as usize]?;
    'states: for state in set {
        mark(lts, &mut taken, *state);
    }
    Ok(taken)
}

/// Marks the labels of the state's moves.
fn mark(lts: &Lts, taken: &mut Vec<bool>, state: u32)
    requires long { length taken.old.items ≡ label_count lts.now }
    requires state { state < lts.now.states }
    ensures { AreFlags lts.now (IsMarked (Takes lts.now state) taken.old.items) taken.new.items }
{
    let moves = lts.moves_of(state);
    'moves: for m in moves {
        match m.act {
            Act::Tau => {}
            Act::Label(label) => taken[label as usize] = true,
        }
    }
}

/// Takes back the labels that some member has to take, and doesn't: under uioco each stable member
/// has to take each input.
pub(crate) fn keep_held(
    alloc: Global,
    mode: Mode,
    lts: &Lts,
    set: &[u32],
    taken: &mut Vec<bool>,
) -> Result<(), Memory>
    requires set { All (λ (q : ℕ). q < lts.now.states) set.now }
    requires taken { AreFlags lts.now (IsTakenIn lts.now set.now) taken.old.items }
    ensures { IfOk result (λ _. AreFlags lts.now (IsHeld mode lts.now set.now) taken.new.items) }
{
    let labels = lts.inputs() + lts.outputs();
    let fronts = fronts_of(alloc, mode, lts, set)?;
    'labels: for label in 0..labels {
        if fronts.fronts[label as usize] != fronts.count {
            taken[label as usize] = false;
        }
    }
    Ok(())
}

/// How far the members that have to take the inputs take each label.
fn fronts_of(alloc: Global, mode: Mode, lts: &Lts, set: &[u32]) -> Result<Fronts, Memory>
    requires { All (λ (q : ℕ). q < lts.now.states) set.now }
    ensures { IfOk result (λ f. AreFronts lts.now f.count (AllTake mode lts.now set.now (length set.now)) f.fronts.items) }
{
    let labels = lts.inputs() + lts.outputs();
    let mut fronts = vec![in alloc; 0; labels as usize]?;
    let mut count = 0;
    'states: for state in set {
        if has_to_take(mode, lts, *state) {
            advance(lts, &mut fronts, *state, count);
            count += 1;
        }
    }
    Ok(Fronts { fronts, count })
}

/// Counts the state for each of its labels that all states counted before it take.
fn advance(lts: &Lts, fronts: &mut Vec<usize>, state: u32, count: usize)
    requires long { length fronts.old.items ≡ label_count lts.now }
    requires state { state < lts.now.states }
    requires few { count < 2 ^ 64 - 1 }
    ensures { IsAdvanced lts.now count (Takes lts.now state) fronts.old.items fronts.new.items }
{
    let moves = lts.moves_of(state);
    'moves: for m in moves {
        match m.act {
            Act::Tau => {}
            Act::Label(label) => {
                if fronts[label as usize] == count {
                    fronts[label as usize] = count + 1;
                }
            }
        }
    }
}

/// Whether the state has to take each input that is allowed.
fn has_to_take(mode: Mode, lts: &Lts, state: u32) -> bool
    requires { state < lts.now.states }
    ensures { IsTrue result ↔ HasToTake mode lts.now state }
{
    match mode {
        Mode::Ioco => false,
        Mode::Uioco => is_stable(lts, state),
    }
}

/// Whether no internal move leaves the state.
fn is_stable(lts: &Lts, state: u32) -> bool
    requires { state < lts.now.states }
    ensures { IsTrue result ↔ IsStable lts.now state }
{
    let moves = lts.moves_of(state);
    'moves: for m in moves {
        match m.act {
            Act::Tau => return false,
            Act::Label(_) => {}
        }
    }
    true
}
