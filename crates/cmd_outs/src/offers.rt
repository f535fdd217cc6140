//! What a set of states shows and allows.
ghost use Rattle.std.specs.Prelude.{◌≡◌, ◌<◌, ℕ, All, IfOk};
ghost use Rattle.lts_base.specs.System.{label_count};
ghost use Rattle.lts_base.specs.After.{Shows};
ghost use Rattle.lts_base.specs.Alphabet.{IsOver};
ghost use Rattle.cmd_outs.specs.Outs.{AreItemsWith, IsOffersText, AllowsInput};
ghost use Rattle.state_sets.specs.Finds.{IsTakenIn};
ghost use Rattle.cmd_outs.specs.Followed.{ShowsOutput};
ghost use Rattle.cmd_outs.specs.Taken.{AreFlags, IsHeld};

use crate::taken::{keep_held, taken_labels};
use crate::text::offers_text;
use lts_base::{Item, Labels, Lts, Memory, Mode, Text, Trace};
use state_sets::{StateSet, shows};
use std::alloc::Global;

/// The text of what a set shows and allows.
pub(crate) fn printed(
    alloc: Global,
    mode: Mode,
    labels: &Labels,
    lts: &Lts,
    set: &StateSet,
) -> Result<Text, Memory>
    requires over { IsOver labels.now lts.now }
    requires set { All (λ (q : ℕ). q < lts.now.states) set.now }
    ensures { IfOk result (IsOffersText mode labels.now lts.now set.now) }
{
    // the calls tell what a system and an alphabet are
    let _ = lts.states();
    let _ = labels.count();
    let mut taken = taken_labels(alloc, lts, set.states())?;
    let shown = shown_items(alloc, lts, set, &taken)?;
    keep_held(alloc, mode, lts, set.states(), &mut taken)?;
    let inputs = allowed_inputs(alloc, mode, lts, set, &taken)?;
    let text = offers_text(
        alloc,
        labels,
        set.states(),
        shown.as_slice(),
        inputs.as_slice(),
    )?;
    Ok(text)
}

/// The outputs that a set shows, and then `delta` if it shows it. `taken` says which labels its
/// members take.
fn shown_items(alloc: Global, lts: &Lts, set: &StateSet, taken: &[bool]) -> Result<Trace, Memory>
    requires set { All (λ (q : ℕ). q < lts.now.states) set.now }
    requires taken { AreFlags lts.now (IsTakenIn lts.now set.now) taken.now }
    ensures { IfOk result (AreItemsWith (Shows lts.now set.now) (label_count lts.now)) }
{
    let _ = lts.states();
    let mut items = shown_outputs(alloc, lts, set, taken)?;
    if shows(lts, set, Item::Delta) {
        items.push(Item::Delta)?;
    }
    Ok(items)
}

fn shown_outputs(alloc: Global, lts: &Lts, set: &StateSet, taken: &[bool]) -> Result<Trace, Memory>
    requires { AreFlags lts.now (IsTakenIn lts.now set.now) taken.now }
    ensures { IfOk result (AreItemsWith (ShowsOutput lts.now set.now) (label_count lts.now)) }
{
    let _ = set.states();
    let mut items = Trace::new(alloc);
    'labels: for label in lts.inputs()..lts.inputs() + lts.outputs() {
        if taken[label as usize] {
            items.push(Item::Output(label))?;
        }
    }
    Ok(items)
}

/// The inputs that a set allows. `held` says which labels its members take as they have to.
fn allowed_inputs(
    alloc: Global,
    mode: Mode,
    lts: &Lts,
    set: &StateSet,
    held: &[bool],
) -> Result<Trace, Memory>
    requires { AreFlags lts.now (IsHeld mode lts.now set.now) held.now }
    ensures { IfOk result (AreItemsWith (AllowsInput mode lts.now set.now) (label_count lts.now)) }
{
    let _ = set.states();
    let mut items = Trace::new(alloc);
    'labels: for label in 0..lts.inputs() {
        if held[label as usize] {
            items.push(Item::Input(label))?;
        }
    }
    Ok(items)
}
