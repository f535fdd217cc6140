//! What one look at an item needs: the items by number, one step of both walks, the test of a new pair.
ghost use Rattle.lts_base.specs.declared.limits.TheConstants.{MOST_LABELS};
ghost use Rattle.std.specs.Prelude.{◌≡◌, ℕ, ◌+◌, ◌<◌, ◌≤◌, List, [], ◌∷◌, ◌++◌, length, Option, IfOk, MatchOption};
ghost use Rattle.lts_base.specs.System.{System, IsItemOf};
ghost use Rattle.lts_base.specs.Order.{place};
ghost use Rattle.lts_base.specs.Reached.{IsFine};
ghost use Rattle.lts_base.specs.Related.{row_of};
ghost use Rattle.walk_core.specs.Walked.{Walked, IsWalk, Grows};
ghost use Rattle.conf_decide.specs.Table.{found_at, AreEarlier};
ghost use Rattle.conf_decide.specs.Progress.{IsFirstWrong, IsSetting, IsRunOf, IsNewest, IsTested, IsOutcome, IsAnswer, IsPace, IsWrongOrFine, IsAgreedTo, TookBoth};

use crate::answer::{Answer, What};
use crate::table::{Found, Table};
use lts_base::{Item, Memory, Mode};
use state_sets::first_missing;
use std::alloc::Global;
use std::sync::ledger::Ledger;
use walk_core::{Node, Steps, Walk, WalkError};

/// What a decision is asked for.
#[derive(Clone, Copy)]
pub struct Setting {
    /// The conformance relation.
    pub mode: Mode,
    /// The number of inputs of both systems.
    pub inputs: u32,
    /// The number of outputs of both systems.
    pub outputs: u32,
    /// The limit of pairs.
    pub most_pairs: u32,
}

/// What stepping both sides by an item gives.
#[derive(Clone, Copy)]
pub enum Pace {
    /// One of the two next sets is empty.
    Nothing,
    /// The two next nodes.
    Pair(u32, u32),
    /// The implementation's next set would bring its members to this, above its limit.
    ImpFull(u64),
    /// The specification's next set would bring its members to this, above its limit.
    SpecFull(u64),
}

/// The item with this number: the inputs, the outputs, `delta`.
pub fn item_at(inputs: u32, outputs: u32, number: u32) -> Item
    requires few { inputs + outputs ≤ MOST_LABELS }
    requires number { number ≤ inputs + outputs }
    ensures place { place (inputs + outputs) result ≡ number }
    ensures item { (s : System) → s.inputs ≡ inputs → s.outputs ≡ outputs → IsItemOf s result }
{
    if number < inputs {
        return Item::Input(number);
    }
    if number < inputs + outputs {
        return Item::Output(number);
    }
    Item::Delta
}

/// The number of the next label, from `number` on, that may be at fault: the sets agree on those
/// that it passes over.
fn next_label<A: Walk, B: Walk>(
    imp: &A,
    spec: &B,
    setting: Setting,
    left: u32,
    right: u32,
    number: u32,
) -> u32
    requires setting { IsSetting setting (A.walked imp.now) (B.walked spec.now) }
    requires left { left < length (A.walked imp.now).sets }
    requires right { right < length (B.walked spec.now).sets }
    requires number { number ≤ setting.inputs + setting.outputs }
    ensures { IsAgreedTo (A.walked imp.now) (B.walked spec.now) left right number (setting.inputs + setting.outputs) result }
{
    let Some(row) = imp.row(Node(left)) else {
        return imp.label_from(Node(left), number);
    };
    let Some(other) = spec.row(Node(right)) else {
        return imp.label_from(Node(left), number);
    };
    first_missing(row, other, number, setting.inputs + setting.outputs)
}

/// The least item that the left set shows and the right one doesn't.
fn first_wrong<A: Walk, B: Walk>(
    imp: &A,
    spec: &B,
    setting: Setting,
    left: u32,
    right: u32,
) -> Option<Item>
    requires setting { IsSetting setting (A.walked imp.now) (B.walked spec.now) }
    requires left { left < length (A.walked imp.now).sets }
    requires right { right < length (B.walked spec.now).sets }
    ensures { IsWrongOrFine (A.walked imp.now) (B.walked spec.now) left right result }
{
    let mut number = setting.inputs;
    'items: while number <= setting.inputs + setting.outputs {
        let next = next_label(imp, spec, setting, left, right, number);
        let item = item_at(setting.inputs, setting.outputs, next);
        if imp.shows(Node(left), item) {
            if !spec.shows(Node(right), item) {
                return Some(item);
            }
        }
        number = next + 1;
    }
    None
}

/// Steps the implementation, and then the specification; none of the two where the first one
/// already leads nowhere.
pub fn step_both<A: Walk, B: Walk, L: Ledger>(
    imp: &mut A,
    spec: &mut B,
    left: u32,
    right: u32,
    item: Item,
    steps: &mut Steps<L>,
) -> Result<Pace, Memory>
    requires left { left < length (A.walked imp.old).sets }
    requires right { right < length (B.walked spec.old).sets }
    requires imp_item { IsItemOf (A.walked imp.old).system item }
    requires spec_item { IsItemOf (B.walked spec.old).system item }
    requires spec_walk { IsWalk (B.walked spec.old) }
    ensures imp_walk { IsWalk (A.walked imp.new) }
    ensures spec_walk { IsWalk (B.walked spec.new) }
    ensures imp { Grows (A.walked imp.old) (A.walked imp.new) }
    ensures spec { Grows (B.walked spec.old) (B.walked spec.new) }
    ensures pace { IfOk result (IsPace (A.walked imp.old) (A.walked imp.new) (B.walked spec.old) (B.walked spec.new) left right item) }
    ensures steps { steps.new ≤ steps.old + 2 }
    ensures taken { TookBoth (A.taken imp.old) (A.taken imp.new) (B.taken spec.old) (B.taken spec.new) 2 }
{
    let left = match imp.step(Node(left), item, steps) {
        Ok(Some(node)) => node.0,
        Ok(None) => return Ok(Pace::Nothing),
        Err(WalkError::Full { reached }) => return Ok(Pace::ImpFull(reached)),
        Err(WalkError::Memory) => return Err(Memory),
    };
    match spec.step(Node(right), item, steps) {
        Ok(Some(node)) => Ok(Pace::Pair(left, node.0)),
        Ok(None) => Ok(Pace::Nothing),
        Err(WalkError::Full { reached }) => Ok(Pace::SpecFull(reached)),
        Err(WalkError::Memory) => Err(Memory),
    }
}

/// Tests a new pair that is within the limits of members, and adds it.
pub fn add<A: Walk, B: Walk>(
    alloc: Global,
    imp: &A,
    spec: &B,
    setting: Setting,
    table: &mut Table,
    found: Found,
) -> Result<Option<Answer>, Memory>
    requires setting { IsSetting setting (A.walked imp.now) (B.walked spec.now) }
    requires left { found.left < length (A.walked imp.now).sets }
    requires right { found.right < length (B.walked spec.now).sets }
    requires earlier { AreEarlier (table.old ++ found ∷ []) }
    requires few { length table.old ≤ setting.most_pairs }
    requires newest { IsNewest setting (A.walked imp.now) (B.walked spec.now) (table.old ++ found ∷ []) }
    ensures tested { IfOk result (IsTested setting (A.walked imp.now) (B.walked spec.now) table.old found table.new) }
    ensures table { length table.old ≤ length table.new }
{
    if table.len() >= setting.most_pairs as usize {
        return Ok(Some(Answer::Undecided {
            what: What::Pairs,
            reached: setting.most_pairs as u64,
            depth: found.depth,
        }));
    }
    let number = table.len();
    table.push(found)?;
    let Some(shown) = first_wrong(imp, spec, setting, found.left, found.right) else {
        return Ok(None);
    };
    let trace = table.trace_of(alloc, number)?;
    Ok(Some(Answer::Violates { trace, shown }))
}
