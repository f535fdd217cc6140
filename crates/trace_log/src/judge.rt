//! The verdict on what was seen.
ghost use Rattle.std.specs.Prelude.{◌≡◌, ℕ, ◌+◌, ◌<◌, ◌^◌, length, All, IfOk, MatchOption};
ghost use Rattle.lts_base.specs.System.{IsItemOf};
ghost use Rattle.trace_log.specs.declared.judge.LogVerdict.{LogVerdict as TheVerdict};
ghost use Rattle.trace_log.specs.Following.{IsAllowedAs, IsNotAllowed};
ghost use Rattle.trace_log.specs.Verdict.{IsSeenOf, IsVerdict, IsStop};

use crate::seen::Seen;
use lts_base::{Item, Lts, Memory, Mode};
use state_sets::{Search, StateSet, allows, opening_with, post_with};
use std::alloc::Global;

/// The verdict on what was seen. Places are counted from 1.
#[derive(Clone, Copy, PartialEq, Eq, Debug)]
pub enum LogVerdict {
    /// The specification allows all that was seen.
    Pass,
    /// At this place something was heard, or nothing for long enough, that the specification
    /// doesn't show there.
    Fail(u32),
    /// At this place something was sent that the specification doesn't allow there.
    Off(u32),
}

/// The verdict on what was seen: the first entry decides that can't follow the allowed trace before
/// it. There are fewer than 2^32 - 1 entries.
pub fn judge_log(alloc: Global, spec: &Lts, mode: Mode, seen: &[Seen]) -> Result<LogVerdict, Memory>
    requires items { All (IsSeenOf spec.now) seen.now }
    requires few { length seen.now + 1 < 2 ^ 32 }
    ensures verdict { IfOk result (IsVerdict mode spec.now seen.now) }
    ensures only { IfOk result (λ v. (w : TheVerdict) → IsVerdict mode spec.now seen.now w → w ≡ v) }
{
    let verdict = follow(alloc, spec, mode, seen)?;
    Ok(verdict)
}

/// Follows what was seen through the sets after allowed traces.
fn follow(alloc: Global, spec: &Lts, mode: Mode, seen: &[Seen]) -> Result<LogVerdict, Memory>
    requires items { All (IsSeenOf spec.now) seen.now }
    requires few { length seen.now + 1 < 2 ^ 32 }
    ensures { IfOk result (IsVerdict mode spec.now seen.now) }
{
    let states = spec.states();
    let mut search = Search::new(alloc, states)?;
    let mut set = opening_with(alloc, spec, &mut search)?;
    let mut place: u32 = 0;
    'entries: for entry in seen {
        place += 1;
        let Some(item) = item_allowed(spec, mode, &set, *entry) else {
            return Ok(stopped(*entry, place));
        };
        set = post_with(alloc, spec, &mut search, &set, item)?;
    }
    Ok(LogVerdict::Pass)
}

/// The item that was seen, where the set allows it.
fn item_allowed(spec: &Lts, mode: Mode, set: &StateSet, entry: Seen) -> Option<Item>
    requires set { All (λ (q : ℕ). q < spec.now.states) set.now }
    requires entry { IsSeenOf spec.now entry }
    ensures { MatchOption result (IsNotAllowed mode spec.now set.now entry) (IsAllowedAs mode spec.now set.now entry) }
{
    match entry {
        Seen::Known(item) => {
            if !allows(spec, mode, set, item) {
                return None;
            }
            Some(item)
        }
        Seen::StrangeSent => None,
        Seen::StrangeHeard => None,
    }
}

/// The verdict at the place of an entry that can't follow.
fn stopped(entry: Seen, place: u32) -> LogVerdict
    ensures { IsStop entry place result }
{
    match entry {
        Seen::Known(Item::Input(_)) => LogVerdict::Off(place),
        Seen::Known(Item::Output(_)) => LogVerdict::Fail(place),
        Seen::Known(Item::Delta) => LogVerdict::Fail(place),
        Seen::StrangeSent => LogVerdict::Off(place),
        Seen::StrangeHeard => LogVerdict::Fail(place),
    }
}
