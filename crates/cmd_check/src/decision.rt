//! The decision on two systems: their walks, and the search over both.
ghost use Rattle.std.specs.Prelude.{◌≡◌, ◌<◌, ◌≤◌, IfOk};
ghost use Rattle.lts_base.specs.declared.limits.TheConstants.{MOST_PAIRS, MOST_MEMBERS};
ghost use Rattle.lts_base.specs.System.{IsSystem};
ghost use Rattle.walk_core.specs.Walked.{IsFresh};
ghost use Rattle.conf_decide.specs.Decided.{HasAlphabet};
ghost use Rattle.cmd_check.specs.Asked.{check_from};
ghost use Rattle.cmd_check.specs.Printable.{IsFound, IsFoundBy};

use crate::words::Check;
use conf_decide::decide::{decide, settle};
use conf_decide::{Answer, Verdict, What};
use lts_base::{Lts, Memory};
use std::alloc::Global;
use std::marker::Brand;
use std::sync::ledger::{Blank, Ledger};
use walk_core::{LazyWalk, Steps, WalkError};

/// What a decision found.
#[derive(Drop, Debug)]
pub enum Found {
    /// The whole answer.
    Whole(Answer),
    /// What is told of the answer, of which no certificate is printed.
    Told(Verdict),
}

/// Decides whether `imp` conforms to `spec`.
pub fn decision(alloc: Global, asked: &Check<'_>, spec: &Lts, imp: &Lts) -> Result<Found, Memory>
    requires some { 0 < asked.now.pairs }
    requires pairs { asked.now.pairs ≤ MOST_PAIRS }
    requires members { asked.now.members ≤ MOST_MEMBERS }
    requires inputs { spec.now.inputs ≡ imp.now.inputs }
    requires outputs { spec.now.outputs ≡ imp.now.outputs }
    requires spec { IsSystem spec.now }
    requires imp { IsSystem imp.now }
    ensures { IfOk result (IsFound (check_from asked.now) imp.now spec.now) }
{
    match LazyWalk::new(alloc, imp, asked.members) {
        Ok(mut left) => against(alloc, asked, spec, imp, &mut left),
        Err(WalkError::Full { reached }) => Ok(at_opening(What::ImpMembers, reached)),
        Err(WalkError::Memory) => Err(Memory),
    }
}

/// The decision, where the implementation's walk has begun.
fn against(
    alloc: Global,
    asked: &Check<'_>,
    spec: &Lts,
    imp: &Lts,
    left: &mut LazyWalk<'_>,
) -> Result<Found, Memory>
    requires some { 0 < asked.now.pairs }
    requires pairs { asked.now.pairs ≤ MOST_PAIRS }
    requires members { asked.now.members ≤ MOST_MEMBERS }
    requires inputs { spec.now.inputs ≡ imp.now.inputs }
    requires outputs { spec.now.outputs ≡ imp.now.outputs }
    requires fresh { IsFresh left.old.walked }
    requires system { left.old.walked.system ≡ imp.now }
    requires limit { left.old.walked.limit ≡ asked.now.members }
    ensures { IfOk result (IsFound (check_from asked.now) imp.now spec.now) }
{
    match LazyWalk::new(alloc, spec, asked.members) {
        Ok(mut right) => search::<Brand>(alloc, asked, left, &mut right, spec, Blank::new(1)),
        Err(WalkError::Full { reached }) => Ok(at_opening(What::SpecMembers, reached)),
        Err(WalkError::Memory) => Err(Memory),
    }
}

/// The answer where a side's opening set alone has too many members.
fn at_opening(what: What, reached: u64) -> Found
    ensures { result ≡ Found.Whole (Answer.Undecided what reached 0) }
{
    Found::Whole(Answer::Undecided {
        what,
        reached,
        depth: 0,
    })
}

/// The search over two walks that hold their opening sets alone.
fn search<L: Ledger>(
    alloc: Global,
    asked: &Check<'_>,
    left: &mut LazyWalk<'_>,
    right: &mut LazyWalk<'_>,
    spec: &Lts,
    blank: Blank,
) -> Result<Found, Memory>
    requires name { blank.name ≡ L.name }
    requires parts { blank.parts ≡ L.parts }
    requires blank { 0 < blank.parts }
    requires left_fresh { IsFresh left.old.walked }
    requires right_fresh { IsFresh right.old.walked }
    requires left_alphabet { HasAlphabet left.old.walked spec.now.inputs spec.now.outputs }
    requires right_alphabet { HasAlphabet right.old.walked spec.now.inputs spec.now.outputs }
    requires some { 0 < asked.now.pairs }
    requires pairs { asked.now.pairs ≤ MOST_PAIRS }
    ensures { IfOk result (IsFoundBy (check_from asked.now) left.old.walked right.old.walked) }
{
    let mut steps = Steps::<L>::new(blank);
    let inputs = spec.inputs();
    let outputs = spec.outputs();
    let (mode, pairs) = (asked.mode, asked.pairs);
    if asked.cert {
        let answer = decide(alloc, left, right, inputs, outputs, mode, pairs, &mut steps)?;
        return Ok(Found::Whole(answer));
    }
    let verdict = settle(alloc, left, right, inputs, outputs, mode, pairs, &mut steps)?;
    Ok(Found::Told(verdict))
}
