//! The check of a relation that is to show that the implementation conforms.
ghost use Rattle.std.specs.Prelude.{◌≡◌, ℕ, ◌+◌, ◌^◌, ◌<◌, length, All, IfOk, MatchOption};
ghost use Rattle.lts_base.specs.System.{IsItemOf};
ghost use Rattle.lts_base.specs.Conformance.{IsConforming};
ghost use Rattle.lts_base.specs.Related.{rows_of, IsClosedAt};
ghost use Rattle.cert_check.specs.declared.checked.Checked.{Checked as TheChecked};
ghost use Rattle.cert_check.specs.Checks.{IsListOf, IsPairOf, HasOpening, IsFirstOpen, IsCheckedRelation};
ghost use Rattle.cert_check.specs.Index.{IsIndex, AreRepeats};
ghost use Rattle.cert_check.specs.Present.{ArePresent};
ghost use Rattle.cert_check.specs.Progress.{IsRelationOf, TellsMore, TellsClosed, TellsOpen};

use crate::checked::Checked;
use crate::index::{Index, has_pair, index_of, is_repeat};
use crate::items::item_at;
use crate::marks::Marks;
use crate::offers::{allows, shows};
use crate::ordered::list_at;
use crate::present::present_in;
use crate::sets::{next_of, opening_of};
use crate::side::Side;
use cert_text::PackedRelation;
use lts_base::{Item, Lts, Memory, Mode};
use std::alloc::Global;

/// Whether the relation is valid: it has the pair of the two opening sets; in each pair the right
/// list shows each item that the left one shows; and each item that the right list allows leads to
/// nothing on the left, or to a pair of the relation. Any other answer is the first reason against
/// it.
pub fn check_relation(
    alloc: Global,
    imp: &Lts,
    spec: &Lts,
    mode: Mode,
    relation: &PackedRelation,
) -> Result<Checked, Memory>
    requires inputs { spec.now.inputs ≡ imp.now.inputs }
    requires outputs { spec.now.outputs ≡ imp.now.outputs }
    requires pairs { All (IsPairOf (length relation.now.left) (length relation.now.right)) relation.now.pairs }
    requires left { All (IsListOf imp.now) relation.now.left }
    requires right { All (IsListOf spec.now) relation.now.right }
    requires few { length relation.now.pairs + 1 < 2 ^ 32 }
    ensures checked { IfOk result (IsCheckedRelation mode imp.now spec.now relation.now) }
    ensures only { IfOk result (λ c. (d : TheChecked) → IsCheckedRelation mode imp.now spec.now relation.now d → d ≡ c) }
    ensures conforms { IfOk result (λ c. c ≡ Checked.Accepted → IsConforming mode imp.now spec.now) }
{
    let imp_side = Side::new(alloc, imp)?;
    let spec_side = Side::new(alloc, spec)?;
    let checked = test_relation(alloc, &imp_side, &spec_side, mode, relation)?;
    Ok(checked)
}

fn test_relation(
    alloc: Global,
    imp: &Side,
    spec: &Side,
    mode: Mode,
    relation: &PackedRelation,
) -> Result<Checked, Memory>
    requires relation { IsRelationOf imp.now spec.now relation.now }
    requires few { length relation.now.pairs + 1 < 2 ^ 32 }
    ensures { IfOk result (IsCheckedRelation mode imp.now spec.now relation.now) }
{
    let mut imp_marks = Marks::new(alloc, imp.states())?;
    let mut spec_marks = Marks::new(alloc, spec.states())?;
    let index = index_of(alloc, relation)?;
    let left = opening_of(alloc, imp.lts(), &mut imp_marks)?;
    let right = opening_of(alloc, spec.lts(), &mut spec_marks)?;
    if !has_pair(relation, &index, &left, &right) {
        return Ok(Checked::Start);
    }
    let checked = check_pairs(
        alloc,
        imp,
        spec,
        mode,
        relation,
        &index,
        &mut imp_marks,
        &mut spec_marks,
    )?;
    Ok(checked)
}

/// Checks pair by pair, where the opening sets are a pair.
fn check_pairs(
    alloc: Global,
    imp: &Side,
    spec: &Side,
    mode: Mode,
    relation: &PackedRelation,
    index: &Index,
    imp_marks: &mut Marks,
    spec_marks: &mut Marks,
) -> Result<Checked, Memory>
    requires relation { IsRelationOf imp.now spec.now relation.now }
    requires index { IsIndex relation.now index.now.lefts index.now.rights index.now.keys }
    requires few { length relation.now.pairs + 1 < 2 ^ 32 }
    requires repeats { AreRepeats relation.now (length relation.now.pairs) index.now.repeated.items }
    requires opening { HasOpening imp.now spec.now (rows_of relation.now) }
    requires imp_states { imp_marks.old.states ≡ imp.now.states }
    requires spec_states { spec_marks.old.states ≡ spec.now.states }
    ensures { IfOk result (IsCheckedRelation mode imp.now spec.now relation.now) }
{
    let lefts = relation.left();
    let rights = relation.right();
    let pairs = relation.pairs();
    let mut number = 0;
    'pairs: for pair in pairs {
        number += 1;
        if !is_repeat(index, number as usize - 1) {
            let left = list_at(lefts, pair.0);
            let right = list_at(rights, pair.1);
            let present = present_in(alloc, imp.lts(), left)?;
            if shows_more(imp, spec, &present, left, right) {
                return Ok(Checked::Outputs(number));
            }
            let fault = first_open(
                alloc, imp, spec, mode, relation, index, imp_marks, spec_marks, &present, left,
                right,
            )?;
            if let Some(item) = fault {
                return Ok(Checked::NotClosed(number, item));
            }
        }
    }
    Ok(Checked::Accepted)
}

/// Whether the left list shows an item that the right one doesn't.
fn shows_more(imp: &Side, spec: &Side, present: &[bool], left: &[u32], right: &[u32]) -> bool
    requires present { ArePresent imp.now left.now (length left.now) present.now }
    requires inputs { spec.now.inputs ≡ imp.now.inputs }
    requires outputs { spec.now.outputs ≡ imp.now.outputs }
    requires left { All (λ (q : ℕ). q < imp.now.states) left.now }
    requires right { All (λ (q : ℕ). q < spec.now.states) right.now }
    ensures { TellsMore imp.now spec.now (record { left = left.now; right = right.now }) result }
{
    let inputs = imp.inputs();
    let outputs = imp.outputs();
    'items: for number in inputs..inputs + outputs + 1 {
        if present[number as usize] {
            let item = item_at(inputs, outputs, number);
            if shows(imp, left, item) {
                if !shows(spec, right, item) {
                    return true;
                }
            }
        }
    }
    false
}

/// The first item at which the pair of these lists isn't closed.
fn first_open(
    alloc: Global,
    imp: &Side,
    spec: &Side,
    mode: Mode,
    relation: &PackedRelation,
    index: &Index,
    imp_marks: &mut Marks,
    spec_marks: &mut Marks,
    present: &[bool],
    left: &[u32],
    right: &[u32],
) -> Result<Option<Item>, Memory>
    requires relation { IsRelationOf imp.now spec.now relation.now }
    requires index { IsIndex relation.now index.now.lefts index.now.rights index.now.keys }
    requires imp_states { imp_marks.old.states ≡ imp.now.states }
    requires spec_states { spec_marks.old.states ≡ spec.now.states }
    requires present { ArePresent imp.now left.now (length left.now) present.now }
    requires left { All (λ (q : ℕ). q < imp.now.states) left.now }
    requires right { All (λ (q : ℕ). q < spec.now.states) right.now }
    ensures imp_states { imp_marks.new.states ≡ imp_marks.old.states }
    ensures spec_states { spec_marks.new.states ≡ spec_marks.old.states }
    ensures open_at { IfOk result (TellsOpen mode imp.now spec.now (rows_of relation.now) (record { left = left.now; right = right.now })) }
{
    let inputs = spec.inputs();
    let outputs = spec.outputs();
    'items: for number in 0..inputs + outputs + 1 {
        if present[number as usize] {
            let item = item_at(inputs, outputs, number);
            let closed = is_closed(
                alloc, imp, spec, mode, relation, index, imp_marks, spec_marks, left, right, item,
            )?;
            if !closed {
                return Ok(Some(item));
            }
        }
    }
    Ok(None)
}

/// Whether the item isn't allowed by the right list, or leads to nothing on the left, or leads to a
/// pair of the relation.
fn is_closed(
    alloc: Global,
    imp: &Side,
    spec: &Side,
    mode: Mode,
    relation: &PackedRelation,
    index: &Index,
    imp_marks: &mut Marks,
    spec_marks: &mut Marks,
    left: &[u32],
    right: &[u32],
    item: Item,
) -> Result<bool, Memory>
    requires relation { IsRelationOf imp.now spec.now relation.now }
    requires index { IsIndex relation.now index.now.lefts index.now.rights index.now.keys }
    requires imp_states { imp_marks.old.states ≡ imp.now.states }
    requires spec_states { spec_marks.old.states ≡ spec.now.states }
    requires left { All (λ (q : ℕ). q < imp.now.states) left.now }
    requires right { All (λ (q : ℕ). q < spec.now.states) right.now }
    requires imp_item { IsItemOf imp.now item }
    requires spec_item { IsItemOf spec.now item }
    ensures imp_states { imp_marks.new.states ≡ imp_marks.old.states }
    ensures spec_states { spec_marks.new.states ≡ spec_marks.old.states }
    ensures closed { IfOk result (TellsClosed mode imp.now spec.now (rows_of relation.now) (record { left = left.now; right = right.now }) item) }
{
    if !allows(spec, mode, right, item) {
        return Ok(true);
    }
    let next_left = next_of(alloc, imp, imp_marks, left, item)?;
    if next_left.as_slice().is_empty() {
        return Ok(true);
    }
    let next_right = next_of(alloc, spec, spec_marks, right, item)?;
    Ok(has_pair(relation, index, &next_left, &next_right))
}
