//! What a list of states shows and allows. Nothing here takes memory.
ghost use Rattle.std.specs.Prelude.{◌≡◌, ℕ, ◌<◌, ◌↔◌, All, Contains, IsTrue};
ghost use Rattle.lts_base.specs.declared.action.Act.TheVariants.{Label};
ghost use Rattle.lts_base.specs.System.{IsItemOf, IsQuiet, IsStable, Takes, HasMove};
ghost use Rattle.lts_base.specs.After.{Shows, Allows, AllStableTake};

use crate::moves::first_from;
use crate::step::is_same;
use lts_base::{Act, Item, Lts, Mode, is_quiet};

/// Whether some member of the list gives the item; of an input none does.
pub fn shown_by(lts: &Lts, set: &[u32], item: Item) -> bool
    requires set { All (λ (q : ℕ). q < lts.now.states) set.now }
    requires item { IsItemOf lts.now item }
    ensures { IsTrue result ↔ Shows lts.now set.now item }
{
    match item {
        Item::Input(_) => false,
        Item::Output(label) => some_takes(lts, set, label),
        Item::Delta => some_is_quiet(lts, set),
    }
}

/// Whether the list allows the item: it shows the output or `delta`; of an input, some member
/// takes it, and under uioco each stable member does.
pub fn allowed_by(lts: &Lts, mode: Mode, set: &[u32], item: Item) -> bool
    requires set { All (λ (q : ℕ). q < lts.now.states) set.now }
    requires item { IsItemOf lts.now item }
    ensures { IsTrue result ↔ Allows mode lts.now set.now item }
{
    match item {
        Item::Input(label) => takes_input(lts, mode, set, label),
        Item::Output(_) => shown_by(lts, set, item),
        Item::Delta => shown_by(lts, set, item),
    }
}

fn takes_input(lts: &Lts, mode: Mode, set: &[u32], label: u32) -> bool
    requires { All (λ (q : ℕ). q < lts.now.states) set.now }
    ensures { IsTrue result ↔ (((q : ℕ) × Contains set.now q × Takes lts.now q label) × AllStableTake mode lts.now set.now label) }
{
    if !some_takes(lts, set, label) {
        return false;
    }
    match mode {
        Mode::Ioco => true,
        Mode::Uioco => all_stable_take(lts, set, label),
    }
}

/// Whether a move with the label leaves some member.
fn some_takes(lts: &Lts, set: &[u32], label: u32) -> bool
    requires { All (λ (q : ℕ). q < lts.now.states) set.now }
    ensures { IsTrue result ↔ ((q : ℕ) × Contains set.now q × Takes lts.now q label) }
{
    'states: for state in set {
        if has_move(lts, *state, Act::Label(label)) {
            return true;
        }
    }
    false
}

/// Whether some member is quiet.
fn some_is_quiet(lts: &Lts, set: &[u32]) -> bool
    requires { All (λ (q : ℕ). q < lts.now.states) set.now }
    ensures { IsTrue result ↔ ((q : ℕ) × Contains set.now q × IsQuiet lts.now q) }
{
    'states: for state in set {
        if is_quiet(lts, *state) {
            return true;
        }
    }
    false
}

/// Whether a move with the label leaves each stable member.
pub(crate) fn all_stable_take(lts: &Lts, set: &[u32], label: u32) -> bool
    requires { All (λ (q : ℕ). q < lts.now.states) set.now }
    ensures { IsTrue result ↔ ((q : ℕ) → Contains set.now q → IsStable lts.now q → Takes lts.now q label) }
{
    'states: for state in set {
        if !takes_if_stable(lts, *state, label) {
            return false;
        }
    }
    true
}

fn takes_if_stable(lts: &Lts, state: u32, label: u32) -> bool
    requires { state < lts.now.states }
    ensures { IsTrue result ↔ (IsStable lts.now state → Takes lts.now state label) }
{
    if has_move(lts, state, Act::Tau) {
        return true;
    }
    has_move(lts, state, Act::Label(label))
}

/// Whether a move with the action leaves the state.
pub(crate) fn has_move(lts: &Lts, state: u32, act: Act) -> bool
    requires { state < lts.now.states }
    ensures { IsTrue result ↔ ((q : ℕ) × HasMove lts.now state act q) }
{
    let moves = lts.moves_of(state);
    let place = first_from(moves, act, 0);
    if place >= moves.len() {
        return false;
    }
    is_same(moves[place].act, act)
}
