//! The decision: the search by breadth over pairs of sets, from the two opening sets on.
ghost use Rattle.lts_base.specs.declared.limits.TheConstants.{MOST_PAIRS};
ghost use Rattle.std.specs.Prelude.{◌≡◌, ℕ, ◌+◌, ◌<◌, ◌≤◌, [], length, IfOk};
ghost use Rattle.walk_core.specs.Walked.{Walked, IsWalk, IsFresh, Grows};
ghost use Rattle.conf_decide.specs.Decided.{HasAlphabet, Decides, Settles, IsPaid, ArePaid};
ghost use Rattle.conf_decide.specs.Progress.{IsSetting, IsRunOf, IsOutcome, ArePaidIn};

use crate::answer::{Answer, Verdict, verdict_of};
use crate::look::look_all;
use crate::relation::relation_of;
use crate::search::{Setting, add};
use crate::table::{Found, Table};
use lts_base::{Item, Memory, Mode};
use std::alloc::Global;
use std::sync::ledger::Ledger;
use walk_core::{Steps, Walk};

/// Looks at all pairs in the order in which they were found, until there is an answer.
fn look_on<A: Walk, B: Walk, L: Ledger>(
    alloc: Global,
    imp: &mut A,
    spec: &mut B,
    setting: Setting,
    table: &mut Table,
    steps: &mut Steps<L>,
) -> Result<Option<Answer>, Memory>
    requires setting { IsSetting setting (A.walked imp.old) (B.walked spec.old) }
    requires run { IsRunOf setting (A.walked imp.old) (B.walked spec.old) table.old 0 0 }
    ensures setting { IsSetting setting (A.walked imp.new) (B.walked spec.new) }
    ensures imp { Grows (A.walked imp.old) (A.walked imp.new) }
    ensures spec { Grows (B.walked spec.old) (B.walked spec.new) }
    ensures outcome { IfOk result (IsOutcome setting (A.walked imp.new) (B.walked spec.new) table.new (length table.new) 0) }
    ensures steps { IsPaid setting.mode setting.most_pairs (A.walked imp.new) (B.walked spec.new) steps.old steps.new }
    ensures taken { ArePaidIn setting (A.walked imp.new) (B.walked spec.new) (A.taken imp.old) (A.taken imp.new) (B.taken spec.old) (B.taken spec.new) }
{
    let mut at = 0;
    'pairs: while at < table.len() {
        if let Some(answer) = look_all(alloc, imp, spec, setting, table, at, steps)? {
            return Ok(Some(answer));
        }
        at += 1;
    }
    Ok(None)
}

/// The search by breadth from the two opening sets on; None where it ends without an answer, and
/// the table then has all reached pairs.
fn search_all<A: Walk, B: Walk, L: Ledger>(
    alloc: Global,
    imp: &mut A,
    spec: &mut B,
    setting: Setting,
    table: &mut Table,
    steps: &mut Steps<L>,
) -> Result<Option<Answer>, Memory>
    requires imp_fresh { IsFresh (A.walked imp.old) }
    requires spec_fresh { IsFresh (B.walked spec.old) }
    requires imp_alphabet { HasAlphabet (A.walked imp.old) setting.inputs setting.outputs }
    requires spec_alphabet { HasAlphabet (B.walked spec.old) setting.inputs setting.outputs }
    requires some { 0 < setting.most_pairs }
    requires few { setting.most_pairs ≤ MOST_PAIRS }
    requires empty { table.old ≡ [] }
    ensures setting { IsSetting setting (A.walked imp.new) (B.walked spec.new) }
    ensures imp { Grows (A.walked imp.old) (A.walked imp.new) }
    ensures spec { Grows (B.walked spec.old) (B.walked spec.new) }
    ensures outcome { IfOk result (IsOutcome setting (A.walked imp.new) (B.walked spec.new) table.new (length table.new) 0) }
    ensures steps { IsPaid setting.mode setting.most_pairs (A.walked imp.new) (B.walked spec.new) steps.old steps.new }
    ensures taken { ArePaidIn setting (A.walked imp.new) (B.walked spec.new) (A.taken imp.old) (A.taken imp.new) (B.taken spec.old) (B.taken spec.new) }
{
    let found = Found {
        left: imp.begin().0,
        right: spec.begin().0,
        from: 0,
        item: Item::Delta,
        depth: 0,
    };
    if let Some(answer) = add(alloc, imp, spec, setting, table, found)? {
        return Ok(Some(answer));
    }
    look_on(alloc, imp, spec, setting, table, steps)
}

/// Decides whether the implementation conforms to the specification (Tretmans, "Model Based
/// Testing with Labelled Transition Systems": ioco, and uioco over Utraces). Both walks hold their
/// opening set alone, and their systems have `inputs` inputs and `outputs` outputs. A pair of sets
/// is found by stepping the implementation, then the specification, and then counting pairs; the
/// first limit met counts. After any answer both walks can be used on.
pub fn decide<A: Walk, B: Walk, L: Ledger>(
    alloc: Global,
    imp: &mut A,
    spec: &mut B,
    inputs: u32,
    outputs: u32,
    mode: Mode,
    most_pairs: u32,
    steps: &mut Steps<L>,
) -> Result<Answer, Memory>
    requires imp_fresh { IsFresh (A.walked imp.old) }
    requires spec_fresh { IsFresh (B.walked spec.old) }
    requires imp_alphabet { HasAlphabet (A.walked imp.old) inputs outputs }
    requires spec_alphabet { HasAlphabet (B.walked spec.old) inputs outputs }
    requires some { 0 < most_pairs }
    requires few { most_pairs ≤ MOST_PAIRS }
    ensures answer { IfOk result (Decides mode most_pairs (A.walked imp.old) (B.walked spec.old)) }
    ensures steps { IsPaid mode most_pairs (A.walked imp.old) (B.walked spec.old) steps.old steps.new }
    ensures taken { ArePaid mode most_pairs (A.walked imp.old) (B.walked spec.old) (A.taken imp.old) (A.taken imp.new) (B.taken spec.old) (B.taken spec.new) }
    ensures imp { Grows (A.walked imp.old) (A.walked imp.new) }
    ensures spec { Grows (B.walked spec.old) (B.walked spec.new) }
    ensures imp_walk { IsWalk (A.walked imp.new) }
    ensures spec_walk { IsWalk (B.walked spec.new) }
{
    let setting = Setting {
        mode,
        inputs,
        outputs,
        most_pairs,
    };
    let mut table = Table::new(alloc);
    if let Some(answer) = search_all(alloc, imp, spec, setting, &mut table, steps)? {
        return Ok(answer);
    }
    let relation = relation_of(alloc, imp, spec, &table)?;
    Ok(Answer::Conforms(relation))
}

/// The same as `decide`, but of a relation it tells the number of pairs alone, and copies no set.
pub fn settle<A: Walk, B: Walk, L: Ledger>(
    alloc: Global,
    imp: &mut A,
    spec: &mut B,
    inputs: u32,
    outputs: u32,
    mode: Mode,
    most_pairs: u32,
    steps: &mut Steps<L>,
) -> Result<Verdict, Memory>
    requires imp_fresh { IsFresh (A.walked imp.old) }
    requires spec_fresh { IsFresh (B.walked spec.old) }
    requires imp_alphabet { HasAlphabet (A.walked imp.old) inputs outputs }
    requires spec_alphabet { HasAlphabet (B.walked spec.old) inputs outputs }
    requires some { 0 < most_pairs }
    requires few { most_pairs ≤ MOST_PAIRS }
    ensures answer { IfOk result (Settles mode most_pairs (A.walked imp.old) (B.walked spec.old)) }
    ensures steps { IsPaid mode most_pairs (A.walked imp.old) (B.walked spec.old) steps.old steps.new }
    ensures taken { ArePaid mode most_pairs (A.walked imp.old) (B.walked spec.old) (A.taken imp.old) (A.taken imp.new) (B.taken spec.old) (B.taken spec.new) }
    ensures imp { Grows (A.walked imp.old) (A.walked imp.new) }
    ensures spec { Grows (B.walked spec.old) (B.walked spec.new) }
    ensures imp_walk { IsWalk (A.walked imp.new) }
    ensures spec_walk { IsWalk (B.walked spec.new) }
{
    let setting = Setting {
        mode,
        inputs,
        outputs,
        most_pairs,
    };
    let mut table = Table::new(alloc);
    if let Some(answer) = search_all(alloc, imp, spec, setting, &mut table, steps)? {
        return Ok(verdict_of(answer));
    }
    Ok(Verdict::Conforms {
        pairs: table.len() as u64,
    })
}
