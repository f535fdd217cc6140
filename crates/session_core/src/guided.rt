//! A chooser that leads along a trace.
ghost use Rattle.std.specs.Prelude.{◌≡◌, ℕ, List};
ghost use Rattle.session_core.specs.Answered.{toward, asks};

use crate::items::same_item;
use lts_base::{Item, Trace};
use walk_core::{Choice, Choose};

/// A chooser that asks for the next input of a trace, as long as the items done are a front of it
/// and an input is next; else it observes.
#[derive(Drop)]
pub struct Guided {
    goal: Trace,
}

impl Guided {
    /// Follows this trace.
    pub fn new(goal: Trace) -> Guided
        ensures { result ≡ record { goal = goal } }
    {
        Guided { goal }
    }
}

impl Choose for Guided {
    ghost answer = { λ s _ done. (toward s.goal done, s) };

    fn choose(&mut self, _offers: &[u32], done: &[Item]) -> Choice {
        next_of(self.goal.as_slice(), done)
    }
}

/// The next input of the goal, where these items are a front of it.
fn next_of(goal: &[Item], done: &[Item]) -> Choice
    ensures { result ≡ toward goal.now done.now }
{
    let mut at = 0;
    while at < goal.len() && at < done.len() {
        if !same_item(goal[at], done[at]) {
            return Choice::Observe;
        }
        at += 1;
    }
    if at < goal.len() {
        ask(goal[at])
    } else {
        Choice::Observe
    }
}

/// The item as a choice: an input is asked for, anything else is observed.
fn ask(item: Item) -> Choice
    ensures { result ≡ asks item }
{
    match item {
        Item::Input(a) => Choice::Input(a),
        Item::Output(_) => Choice::Observe,
        Item::Delta => Choice::Observe,
    }
}
