//! What states and sets have, as rows of bits: one bit for each label, and after them one for quiet.
ghost use Rattle.std.specs.Prelude.{◌≡◌, ℕ, ◌<◌, ◌≤◌, ◌↔◌, [], ◌∷◌, List, length, All, IsTrue, IfOk};
ghost use Rattle.lts_base.specs.System.{IsItemOf, Takes, label_count};
ghost use Rattle.lts_base.specs.After.{Shows, Allows, AllStableTake};
ghost use Rattle.state_sets.specs.Finds.{IsLeastFrom, IsTakenIn};
ghost use Rattle.state_sets.specs.Rows.{width_of, HasBit, IsRowOf, AreMasks};

use crate::bits::{clear_bits, has_bit, join_bits, next_bit, set_bit};
use crate::offers::all_stable_take;
use crate::rows::Rows;
use lts_base::{Act, Item, Lts, Memory, Mode, is_quiet};
use std::alloc::Global;

/// The number of words of a row of the system.
pub fn row_width(lts: &Lts) -> usize
    ensures { result ≡ width_of lts.now }
{
    ((lts.inputs() + lts.outputs()) / 64) as usize + 1
}

/// Sets the bits of the labels with which moves leave the state.
fn mark_labels(lts: &Lts, state: u32, row: &mut [u64])
    requires state { state < lts.now.states }
    requires long { length row.old ≡ width_of lts.now }
    requires clear { (a : ℕ) → ¬ HasBit row.old a }
    ensures long { length row.new ≡ length row.old }
    ensures bits { (a : ℕ) → HasBit row.new a ↔ Takes lts.now state a }
{
    let moves = lts.moves_of(state);
    'moves: for place in 0..moves.len() {
        if let Act::Label(label) = moves[place].act {
            set_bit(row, label);
        }
    }
}

/// Makes the row of one state.
fn mark_state(lts: &Lts, state: u32, row: &mut [u64])
    requires state { state < lts.now.states }
    requires long { length row.old ≡ width_of lts.now }
    ensures { IsRowOf lts.now (state ∷ []) row.new }
{
    let last = lts.inputs() + lts.outputs();
    clear_bits(row);
    mark_labels(lts, state, row);
    if is_quiet(lts, state) {
        set_bit(row, last);
    }
}

/// The rows of all states, in their order.
pub fn masks_of(alloc: Global, lts: &Lts) -> Result<Rows, Memory>
    ensures { IfOk result (AreMasks lts.now) }
{
    let width = row_width(lts);
    let mut row = vec![in alloc; 0; width]?;
    let mut rows = Rows::new(alloc, width);
    'states: for state in 0..lts.states() {
        mark_state(lts, state, &mut row);
        rows.push(&row)?;
    }
    Ok(rows)
}

/// Makes the row of a list of states.
pub fn mark_set(lts: &Lts, masks: &Rows, set: &[u32], row: &mut [u64])
    requires masks { AreMasks lts.now masks.now }
    requires set { All (λ (q : ℕ). q < lts.now.states) set.now }
    requires long { length row.old ≡ width_of lts.now }
    ensures { IsRowOf lts.now set.now row.new }
{
    clear_bits(row);
    'states: for state in set {
        join_bits(row, masks.row(*state as usize));
    }
}

/// Whether some member of the list of states that the row is of takes the label.
fn row_has(lts: &Lts, row: &[u64], label: u32) -> bool
    requires label { label < label_count lts.now }
    requires long { length row.now ≡ width_of lts.now }
    ensures { (ps : List ℕ) → IsRowOf lts.now ps row.now → (IsTrue result ↔ IsTakenIn lts.now ps label) }
{
    let _ = lts.states();
    has_bit(row, label)
}

/// Whether the list of states that the row is of shows the item.
pub fn row_shows(lts: &Lts, row: &[u64], item: Item) -> bool
    requires item { IsItemOf lts.now item }
    requires long { length row.now ≡ width_of lts.now }
    ensures { (ps : List ℕ) → IsRowOf lts.now ps row.now → (IsTrue result ↔ Shows lts.now ps item) }
{
    match item {
        Item::Input(_) => false,
        Item::Output(label) => row_has(lts, row, label),
        Item::Delta => has_bit(row, lts.inputs() + lts.outputs()),
    }
}

/// The least label from `from` on that some member of the list of states takes; where there is
/// none, the number of labels.
pub fn row_label_from(lts: &Lts, row: &[u64], from: u32) -> u32
    requires from { from ≤ label_count lts.now }
    requires long { length row.now ≡ width_of lts.now }
    ensures { (ps : List ℕ) → IsRowOf lts.now ps row.now → IsLeastFrom (IsTakenIn lts.now ps) from (label_count lts.now) result }
{
    next_bit(row, from, lts.inputs() + lts.outputs())
}

/// Whether the list of states, of which the row is, allows the item.
pub fn row_allows(lts: &Lts, mode: Mode, set: &[u32], row: &[u64], item: Item) -> bool
    requires set { All (λ (q : ℕ). q < lts.now.states) set.now }
    requires item { IsItemOf lts.now item }
    requires row { IsRowOf lts.now set.now row.now }
    ensures { IsTrue result ↔ Allows mode lts.now set.now item }
{
    match item {
        Item::Input(label) => row_takes(lts, mode, set, row, label),
        Item::Output(_) => row_shows(lts, row, item),
        Item::Delta => row_shows(lts, row, item),
    }
}

fn row_takes(lts: &Lts, mode: Mode, set: &[u32], row: &[u64], label: u32) -> bool
    requires set { All (λ (q : ℕ). q < lts.now.states) set.now }
    requires label { label < label_count lts.now }
    requires row { IsRowOf lts.now set.now row.now }
    ensures { IsTrue result ↔ (IsTakenIn lts.now set.now label × AllStableTake mode lts.now set.now label) }
{
    if !row_has(lts, row, label) {
        return false;
    }
    match mode {
        Mode::Ioco => true,
        Mode::Uioco => all_stable_take(lts, set, label),
    }
}
