//! The search by breadth: one item of one pair, all items of one pair.
ghost use Rattle.std.specs.Prelude.{◌≡◌, ℕ, ◌+◌, ◌*◌, ◌<◌, ◌≤◌, List, length, Option, IfOk};
ghost use Rattle.walk_core.specs.Walked.{Walked, Grows};
ghost use Rattle.conf_decide.specs.Progress.{IsSetting, IsRunOf, IsOutcome, TookBoth};

use crate::answer::{Answer, What};
use crate::search::{Pace, Setting, add, item_at, step_both};
use crate::table::{Found, Table};
use lts_base::Memory;
use std::alloc::Global;
use std::sync::ledger::Ledger;
use walk_core::{Node, Steps, Walk};

/// Looks at one item of one pair.
fn look<A: Walk, B: Walk, L: Ledger>(
    alloc: Global,
    imp: &mut A,
    spec: &mut B,
    setting: Setting,
    table: &mut Table,
    at: usize,
    number: u32,
    steps: &mut Steps<L>,
) -> Result<Option<Answer>, Memory>
    requires setting { IsSetting setting (A.walked imp.old) (B.walked spec.old) }
    requires at { at < length table.old }
    requires number { number ≤ setting.inputs + setting.outputs }
    requires run { IsRunOf setting (A.walked imp.old) (B.walked spec.old) table.old at number }
    ensures setting { IsSetting setting (A.walked imp.new) (B.walked spec.new) }
    ensures imp { Grows (A.walked imp.old) (A.walked imp.new) }
    ensures spec { Grows (B.walked spec.old) (B.walked spec.new) }
    ensures outcome { IfOk result (IsOutcome setting (A.walked imp.new) (B.walked spec.new) table.new at (number + 1)) }
    ensures table { length table.old ≤ length table.new }
    ensures steps { steps.new ≤ steps.old + 2 }
    ensures taken { TookBoth (A.taken imp.old) (A.taken imp.new) (B.taken spec.old) (B.taken spec.new) 2 }
{
    let item = item_at(setting.inputs, setting.outputs, number);
    let from = table.at(at);
    if !spec.allows(Node(from.right), setting.mode, item) {
        return Ok(None);
    }
    let depth = from.depth + 1;
    match step_both(imp, spec, from.left, from.right, item, steps)? {
        Pace::Nothing => Ok(None),
        Pace::ImpFull(reached) => Ok(Some(Answer::Undecided {
            what: What::ImpMembers,
            reached,
            depth,
        })),
        Pace::SpecFull(reached) => Ok(Some(Answer::Undecided {
            what: What::SpecMembers,
            reached,
            depth,
        })),
        Pace::Pair(left, right) => {
            if table.has(left, right) {
                return Ok(None);
            }
            let from = at as u32;
            add(
                alloc,
                imp,
                spec,
                setting,
                table,
                Found {
                    left,
                    right,
                    from,
                    item,
                    depth,
                },
            )
        }
    }
}

/// The number of the next item of a pair, from `number` on, that is worth a look: a label that isn't
/// taken in both sets leads nowhere.
fn next_item<A: Walk, B: Walk>(
    imp: &A,
    spec: &B,
    setting: Setting,
    table: &Table,
    at: usize,
    number: u32,
) -> u32
    requires setting { IsSetting setting (A.walked imp.now) (B.walked spec.now) }
    requires at { at < length table.now }
    requires number { number ≤ setting.inputs + setting.outputs }
    requires run { IsRunOf setting (A.walked imp.now) (B.walked spec.now) table.now at number }
    ensures low { number ≤ result }
    ensures high { result ≤ setting.inputs + setting.outputs }
    ensures run { IsRunOf setting (A.walked imp.now) (B.walked spec.now) table.now at result }
{
    // the implementation's set is seldom the larger one, so it is asked first
    let from = table.at(at);
    let taken = imp.label_from(Node(from.left), number);
    spec.label_from(Node(from.right), taken)
}

/// Looks at all items of one pair.
pub fn look_all<A: Walk, B: Walk, L: Ledger>(
    alloc: Global,
    imp: &mut A,
    spec: &mut B,
    setting: Setting,
    table: &mut Table,
    at: usize,
    steps: &mut Steps<L>,
) -> Result<Option<Answer>, Memory>
    requires setting { IsSetting setting (A.walked imp.old) (B.walked spec.old) }
    requires at { at < length table.old }
    requires run { IsRunOf setting (A.walked imp.old) (B.walked spec.old) table.old at 0 }
    ensures setting { IsSetting setting (A.walked imp.new) (B.walked spec.new) }
    ensures imp { Grows (A.walked imp.old) (A.walked imp.new) }
    ensures spec { Grows (B.walked spec.old) (B.walked spec.new) }
    ensures outcome { IfOk result (IsOutcome setting (A.walked imp.new) (B.walked spec.new) table.new (at + 1) 0) }
    ensures table { length table.old ≤ length table.new }
    ensures steps { steps.new ≤ steps.old + 2 * (setting.inputs + setting.outputs + 1) }
    ensures taken { TookBoth (A.taken imp.old) (A.taken imp.new) (B.taken spec.old) (B.taken spec.new) (2 * (setting.inputs + setting.outputs + 1)) }
{
    let mut number = 0;
    'items: while number <= setting.inputs + setting.outputs {
        let next = next_item(imp, spec, setting, table, at, number);
        if let Some(answer) = look(alloc, imp, spec, setting, table, at, next, steps)? {
            return Ok(Some(answer));
        }
        number = next + 1;
    }
    Ok(None)
}
