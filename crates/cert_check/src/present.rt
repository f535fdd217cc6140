//! The items that a list of states may step with: what can be passed over is told by one look at the
//! moves.
ghost use Rattle.std.specs.Prelude.{◌≡◌, ℕ, ◌+◌, ◌<◌, All, length, IfOk, true, false, slice_index_or as get_or};
ghost use Rattle.lts_base.specs.System.{label_count};
ghost use Rattle.cert_check.specs.Present.{ArePresent, Marks};

use lts_base::{Act, Lts, Memory};
use std::alloc::Global;

/// For each item by its place, whether the list may step with it: a label has a mark where a move of
/// a member carries it, and `delta` has one always.
pub fn present_in(alloc: Global, lts: &Lts, list: &[u32]) -> Result<Vec<bool>, Memory>
    requires { All (λ (q : ℕ). q < lts.now.states) list.now }
    ensures { IfOk result (λ v. ArePresent lts.now list.now (length list.now) v.items) }
{
    let count = lts.inputs() + lts.outputs();
    let mut present = vec![in alloc; false; count as usize]?;
    present.push(true)?;
    'states: for state in list {
        mark_labels(lts, &mut present, *state);
    }
    Ok(present)
}

/// Marks the labels that moves of the state carry.
fn mark_labels(lts: &Lts, present: &mut Vec<bool>, state: u32)
    requires state { state < lts.now.states }
    requires long { length present.old.items ≡ label_count lts.now + 1 }
    ensures { Marks lts.now state present.old.items present.new.items }
{
    let moves = lts.moves_of(state);
    'moves: for m in moves {
        match m.act {
            Act::Tau => {}
            Act::Label(label) => present[label as usize] = true,
        }
    }
}
