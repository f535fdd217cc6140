//! The plain walk: it steps anew each time, and finds a set again by its states.
ghost use Rattle.lts_base.specs.declared.limits.TheConstants.{MOST_MEMBERS};
ghost use Rattle.std.specs.Prelude.{◌≡◌, ◌≤◌, IfOk, IfErr};
ghost use Rattle.walk_core.specs.Walked.{IsFresh};
ghost use Rattle.walk_core.specs.Refused.{RefusesOpening};

use crate::interned::Interned;
use crate::node::Node;
use crate::steps::Steps;
use crate::walk::{Walk, WalkError};
use lts_base::{Item, Lts, Mode};
use std::alloc::Global;
use std::marker::Model;
use std::sync::ledger::Ledger;

/// A walk that borrows its system and keeps its sets in the order in which they were found. Each
/// step costs in proportion to the moves that it looks at and the states that it finds.
#[derive(Drop)]
pub struct PlainWalk<'a> {
    sets: Interned<'a>,
    // how many steps were taken, modulo 2^64
    taken: u64,
}

impl<'a> Model for PlainWalk<'a> {
    ghost use Rattle.walk_core.specs.Taken.{Counted};

    ghost Value = { Counted };

    ghost view = { λ a. record { walked = a.sets; taken = a.taken } };
}

impl<'a> PlainWalk<'a> {
    /// A walk over the system that holds the opening set alone, with at most `most` members in all
    /// its sets together.
    pub fn new(alloc: Global, lts: &'a Lts, most: u64) -> Result<PlainWalk<'a>, WalkError>
        requires { most ≤ MOST_MEMBERS }
        ensures fresh { IfOk result (λ w. IsFresh w.walked) }
        ensures system { IfOk result (λ w. w.walked.system ≡ lts.now) }
        ensures limit { IfOk result (λ w. w.walked.limit ≡ most) }
        ensures taken { IfOk result (λ w. w.taken ≡ 0) }
        ensures err { IfErr result (RefusesOpening lts.now most) }
    {
        let sets = Interned::new(alloc, lts, most)?;
        Ok(PlainWalk { sets, taken: 0 })
    }
}

impl<'a> Walk for PlainWalk<'a> {
    ghost walked = { λ w. w.walked };

    ghost taken = { λ w. w.taken };

    fn begin(&self) -> Node {
        self.sets.begin()
    }

    fn step<L: Ledger>(
        &mut self,
        node: Node,
        item: Item,
        steps: &mut Steps<L>,
    ) -> Result<Option<Node>, WalkError> {
        steps.tick();
        self.taken = self.taken.wrapping_add(1);
        self.sets.step(node, item)
    }

    fn allows(&self, node: Node, mode: Mode, item: Item) -> bool {
        self.sets.allows(node, mode, item)
    }

    fn shows(&self, node: Node, item: Item) -> bool {
        self.sets.shows(node, item)
    }

    fn label_from(&self, node: Node, from: u32) -> u32 {
        self.sets.label_from(node, from)
    }

    fn row(&self, node: Node) -> Option<&[u64]> {
        self.sets.row(node)
    }

    fn states(&self, node: Node) -> &[u32] {
        self.sets.states(node)
    }

    fn members(&self) -> u64 {
        self.sets.members()
    }
}
