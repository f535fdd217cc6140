//! What a list of states shows and allows. Nothing here takes memory.
ghost use Rattle.std.specs.Prelude.{◌≡◌, ℕ, ◌<◌, ◌↔◌, All, Contains, IsTrue};
ghost use Rattle.lts_base.specs.declared.action.Act.TheVariants.{Label};
ghost use Rattle.lts_base.specs.System.{IsItemOf, IsStable, Takes};
ghost use Rattle.lts_base.specs.After.{Gives, Shows, Allows, AllStableTake};

use crate::moves::has_move;
use crate::side::Side;
use lts_base::{Act, Item, Lts, Mode};

/// Whether some member of the list gives the item; of an input none does.
pub fn shows(side: &Side, list: &[u32], item: Item) -> bool
    requires list { All (λ (q : ℕ). q < side.now.states) list.now }
    requires item { IsItemOf side.now item }
    ensures { IsTrue result ↔ Shows side.now list.now item }
{
    'states: for state in list {
        if gives(side, *state, item) {
            return true;
        }
    }
    false
}

/// Whether the list allows the item: it shows the output or `delta`; of an input, some member takes
/// it, and under uioco each stable member does.
pub fn allows(side: &Side, mode: Mode, list: &[u32], item: Item) -> bool
    requires list { All (λ (q : ℕ). q < side.now.states) list.now }
    requires item { IsItemOf side.now item }
    ensures { IsTrue result ↔ Allows mode side.now list.now item }
{
    match item {
        Item::Input(label) => allows_input(side.lts(), mode, list, label),
        Item::Output(_) => shows(side, list, item),
        Item::Delta => shows(side, list, item),
    }
}

/// Whether the state gives the item: a move with the output leaves it, or it is quiet.
fn gives(side: &Side, state: u32, item: Item) -> bool
    requires state { state < side.now.states }
    requires item { IsItemOf side.now item }
    ensures { IsTrue result ↔ Gives side.now state item }
{
    match item {
        Item::Input(_) => false,
        Item::Output(label) => has_move(side.lts(), state, Act::Label(label)),
        Item::Delta => side.is_quiet(state),
    }
}

fn allows_input(lts: &Lts, mode: Mode, list: &[u32], label: u32) -> bool
    requires { All (λ (q : ℕ). q < lts.now.states) list.now }
    ensures { IsTrue result ↔ (((q : ℕ) × Contains list.now q × Takes lts.now q label) × AllStableTake mode lts.now list.now label) }
{
    if !some_takes(lts, list, label) {
        return false;
    }
    match mode {
        Mode::Ioco => true,
        Mode::Uioco => all_stable_take(lts, list, label),
    }
}

/// Whether a move with the label leaves some member.
fn some_takes(lts: &Lts, list: &[u32], label: u32) -> bool
    requires { All (λ (q : ℕ). q < lts.now.states) list.now }
    ensures { IsTrue result ↔ ((q : ℕ) × Contains list.now q × Takes lts.now q label) }
{
    'states: for state in list {
        if has_move(lts, *state, Act::Label(label)) {
            return true;
        }
    }
    false
}

/// Whether a move with the label leaves each stable member.
fn all_stable_take(lts: &Lts, list: &[u32], label: u32) -> bool
    requires { All (λ (q : ℕ). q < lts.now.states) list.now }
    ensures { IsTrue result ↔ ((q : ℕ) → Contains list.now q → IsStable lts.now q → Takes lts.now q label) }
{
    'states: for state in list {
        if !takes_if_stable(lts, *state, label) {
            return false;
        }
    }
    true
}

fn takes_if_stable(lts: &Lts, state: u32, label: u32) -> bool
    requires { state < lts.now.states }
    ensures { IsTrue result ↔ (IsStable lts.now state → Takes lts.now state label) }
{
    if has_move(lts, state, Act::Tau) {
        return true;
    }
    has_move(lts, state, Act::Label(label))
}
