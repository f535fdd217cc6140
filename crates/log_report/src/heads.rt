//! Logs whose heads tell of another specification, or of another reading of divergence.
ghost use Rattle.std.specs.Prelude.{◌≡◌, ◌↔◌, ◌+◌, ◌<◌, ◌^◌, length, IsTrue, MatchOption};
ghost use Rattle.log_report.specs.Heads.{IsSameHead, AreSameHeads, RefusesHeads, TellsOther};

use log_text::{Digest, Head, Named};
use lts_base::Divergence;

/// What the head of a log tells otherwise than the words and the specification's file. Logs are
/// counted from 1, within their file.
#[derive(Clone, Copy, PartialEq, Eq, Debug)]
pub enum OtherHead {
    /// The digest of the log isn't that of the specification's file.
    OtherSpec(u32),
    /// Divergence was read otherwise than the words ask for.
    OtherDivergence(u32),
}

/// The first log of version 2 whose head tells another digest, or another reading of divergence.
pub fn other_head(logs: &[Named], spec: &Digest, divergence: Divergence) -> Option<OtherHead>
    requires { length logs.now + 1 < 2 ^ 32 }
    ensures { MatchOption result (AreSameHeads spec.now divergence logs.now) (RefusesHeads spec.now divergence logs.now) }
{
    let mut number: u32 = 0;
    'logs: for named in logs {
        number += 1;
        match other_in(&named.head, spec, divergence, number) {
            None => {}
            Some(other) => return Some(other),
        }
    }
    None
}

/// What the head of log `number` tells otherwise.
fn other_in(head: &Head, spec: &Digest, divergence: Divergence, number: u32) -> Option<OtherHead>
    ensures { MatchOption result (IsSameHead spec.now divergence head.now) (TellsOther spec.now divergence head.now number) }
{
    let Head::Two {
        divergence: read,
        spec: told,
    } = head
    else {
        return None;
    };
    if !is_same_digest(told, spec) {
        return Some(OtherHead::OtherSpec(number));
    }
    if !is_same_reading(*read, divergence) {
        return Some(OtherHead::OtherDivergence(number));
    }
    None
}

fn is_same_digest(one: &Digest, other: &Digest) -> bool
    ensures { IsTrue result ↔ one.now ≡ other.now }
{
    one.0 == other.0
}

fn is_same_reading(one: Divergence, other: Divergence) -> bool
    ensures { IsTrue result ↔ one ≡ other }
{
    match one {
        Divergence::Refuse => match other {
            Divergence::Refuse => true,
            Divergence::Quiet => false,
        },
        Divergence::Quiet => match other {
            Divergence::Refuse => false,
            Divergence::Quiet => true,
        },
    }
}
