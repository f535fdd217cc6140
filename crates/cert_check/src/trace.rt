//! The check of a trace and an item that are to be a violation.
ghost use Rattle.std.specs.Prelude.{◌≡◌, ℕ, ◌+◌, ◌^◌, ◌<◌, length, All, IfOk, MatchOption};
ghost use Rattle.lts_base.specs.System.{IsItemOf};
ghost use Rattle.lts_base.specs.After.{IsSetAfter};
ghost use Rattle.lts_base.specs.Conformance.{IsAllowed};
ghost use Rattle.cert_check.specs.declared.checked.Checked.{Checked as TheChecked};
ghost use Rattle.cert_check.specs.Checks.{IsCheckedTrace, IsFirstNotAllowed};

use crate::checked::Checked;
use crate::marks::Marks;
use crate::offers::{allows, shows};
use crate::sets::{next_of, opening_of};
use crate::side::Side;
use lts_base::{Item, Lts, Memory, Mode, Trace};
use std::alloc::Global;

/// Whether the trace and the item are a violation: the specification allows the trace, and after it
/// the implementation shows the item and the specification doesn't. Any other answer is the first
/// reason against it.
pub fn check_trace(
    alloc: Global,
    imp: &Lts,
    spec: &Lts,
    mode: Mode,
    trace: &Trace,
    shown: Item,
) -> Result<Checked, Memory>
    requires inputs { spec.now.inputs ≡ imp.now.inputs }
    requires outputs { spec.now.outputs ≡ imp.now.outputs }
    requires items { All (IsItemOf spec.now) trace.now }
    requires shown { IsItemOf spec.now shown }
    requires few { length trace.now + 1 < 2 ^ 32 }
    ensures checked { IfOk result (IsCheckedTrace mode imp.now spec.now trace.now shown) }
    ensures only { IfOk result (λ c. (d : TheChecked) → IsCheckedTrace mode imp.now spec.now trace.now shown d → d ≡ c) }
{
    let imp_side = Side::new(alloc, imp)?;
    let spec_side = Side::new(alloc, spec)?;
    let checked = test_trace(alloc, &imp_side, &spec_side, mode, trace.as_slice(), shown)?;
    Ok(checked)
}

/// What the check of the items and the item after them answers.
fn test_trace(
    alloc: Global,
    imp: &Side,
    spec: &Side,
    mode: Mode,
    items: &[Item],
    shown: Item,
) -> Result<Checked, Memory>
    requires inputs { spec.now.inputs ≡ imp.now.inputs }
    requires outputs { spec.now.outputs ≡ imp.now.outputs }
    requires items { All (IsItemOf spec.now) items.now }
    requires shown { IsItemOf spec.now shown }
    requires few { length items.now + 1 < 2 ^ 32 }
    ensures { IfOk result (IsCheckedTrace mode imp.now spec.now items.now shown) }
{
    if let Some(place) = first_not_allowed(alloc, spec, mode, items)? {
        return Ok(Checked::NotAllowed(place));
    }
    let left = set_after(alloc, imp, items)?;
    if !shows(imp, &left, shown) {
        return Ok(Checked::NotShown);
    }
    let right = set_after(alloc, spec, items)?;
    if shows(spec, &right, shown) {
        return Ok(Checked::Allowed);
    }
    Ok(Checked::Accepted)
}

/// The first place of the trace, from 1, up to which it isn't allowed.
fn first_not_allowed(
    alloc: Global,
    spec: &Side,
    mode: Mode,
    items: &[Item],
) -> Result<Option<u32>, Memory>
    requires items { All (IsItemOf spec.now) items.now }
    requires few { length items.now + 1 < 2 ^ 32 }
    ensures { IfOk result (λ o. MatchOption o (IsAllowed mode spec.now items.now) (IsFirstNotAllowed mode spec.now items.now)) }
{
    let states = spec.states();
    let mut marks = Marks::new(alloc, states)?;
    let mut set = opening_of(alloc, spec.lts(), &mut marks)?;
    let mut place = 0;
    'items: for item in items {
        place += 1;
        if !allows(spec, mode, &set, *item) {
            return Ok(Some(place));
        }
        set = next_of(alloc, spec, &mut marks, &set, *item)?;
    }
    Ok(None)
}

/// The set after the trace.
fn set_after(alloc: Global, side: &Side, items: &[Item]) -> Result<Vec<u32>, Memory>
    requires { All (IsItemOf side.now) items.now }
    ensures set { IfOk result (λ v. IsSetAfter side.now items.now v.items) }
    ensures within { IfOk result (λ v. All (λ (q : ℕ). q < side.now.states) v.items) }
{
    let states = side.states();
    let mut marks = Marks::new(alloc, states)?;
    let mut set = opening_of(alloc, side.lts(), &mut marks)?;
    'items: for item in items {
        set = next_of(alloc, side, &mut marks, &set, *item)?;
    }
    Ok(set)
}
