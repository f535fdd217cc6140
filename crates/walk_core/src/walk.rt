//! The trait of all walks: what each call answers, and what it does to the list of sets.
ghost use Rattle.std.specs.Prelude.{◌≡◌, ℕ, ◌+◌, ◌<◌, ◌≤◌, ◌↔◌, [], length, IsTrue, IfOk, IfErr, IfSome, OnErr};
ghost use Rattle.std.specs.Option.{option_map};
ghost use Rattle.lts_base.specs.System.{IsItemOf, label_count};
ghost use Rattle.lts_base.specs.After.{IsSetAfter, Shows, Allows};
ghost use Rattle.lts_base.specs.Reached.{total_members};
ghost use Rattle.state_sets.specs.Finds.{IsLeastFrom, IsTakenIn};
ghost use Rattle.state_sets.specs.Rows.{IsRowOf};
ghost use Rattle.walk_core.specs.Walked.{Walked, set_at, IsWalk, Grows, IsStep, LeadsTo};
ghost use Rattle.walk_core.specs.Taken.{Took};
ghost use Rattle.walk_core.specs.Refused.{Refuses, KeepsAccount};

use crate::node::Node;
use crate::steps::Steps;
use lts_base::{Item, Memory, Mode};
use std::sync::ledger::Ledger;

/// Why a walk refused to find a further set. After either the walk's list of sets is as before.
#[derive(Clone, Copy, PartialEq, Eq, Debug)]
pub enum WalkError {
    /// The new set would bring the number of members of all sets to `reached`, above the limit.
    Full {
        /// That number.
        reached: u64,
    },
    /// Memory ran out.
    Memory,
}

impl From<Memory> for WalkError {
    ghost use Rattle.std.specs.Prelude.{◌≡◌};
    ghost use Rattle.walk_core.specs.declared.walk.WalkError.TheVariants.{Memory as OutOfMemory};

    ghost from_gives = { λ _ e. e ≡ OutOfMemory };

    fn from(_error: Memory) -> WalkError {
        WalkError::Memory
    }
}

/// The suspension automaton of a system, whose nodes are sets of states, found as steps ask for
/// them (Tretmans, "Model Based Testing with Labelled Transition Systems", suspension automata).
pub trait Walk {
    ghost walked: { Self → Walked };

    // how many steps it took, modulo 2^64
    ghost taken: { Self → ℕ };

    /// The node of the set after the empty trace.
    fn begin(&self) -> Node
        ensures node { result.0 < length (walked self.now).sets }
        ensures opening { IsSetAfter (walked self.now).system [] (set_at (walked self.now).sets result.0) }
        ensures walk { IsWalk (walked self.now) };

    /// One step by an item: the node of the set that it leads to, or None where that set is
    /// empty. Each call counts one step, in the walk and in `steps`, also where it is refused.
    fn step<L: Ledger>(
        &mut self,
        node: Node,
        item: Item,
        steps: &mut Steps<L>,
    ) -> Result<Option<Node>, WalkError>
        requires node { node.0 < length (walked self.old).sets }
        requires item { IsItemOf (walked self.old).system item }
        ensures walk { IsWalk (walked self.new) }
        ensures grows { Grows (walked self.old) (walked self.new) }
        ensures ok { IfOk result (λ to. IsStep (walked self.old) (walked self.new) node.0 item (option_map (λ (n : _). n.0) to)) }
        ensures after { IfOk result (λ to. LeadsTo (walked self.old) (walked self.new) node.0 item (option_map (λ (n : _). n.0) to)) }
        ensures err { IfErr result (λ e. Refuses (walked self.old) node.0 item e) }
        ensures same { OnErr result (walked self.new ≡ walked self.old) }
        ensures account { KeepsAccount (walked self.old) (walked self.new) node.0 item result }
        ensures taken { Took (taken self.old) (taken self.new) 1 }
        ensures steps { steps.new ≡ steps.old + 1 };

    /// Whether the node's set allows the item.
    fn allows(&self, node: Node, mode: Mode, item: Item) -> bool
        requires node { node.0 < length (walked self.now).sets }
        requires item { IsItemOf (walked self.now).system item }
        requires walk { IsWalk (walked self.now) }
        ensures { IsTrue result ↔ Allows mode (walked self.now).system (set_at (walked self.now).sets node.0) item };

    /// Whether the node's set shows the item.
    fn shows(&self, node: Node, item: Item) -> bool
        requires node { node.0 < length (walked self.now).sets }
        requires item { IsItemOf (walked self.now).system item }
        requires walk { IsWalk (walked self.now) }
        ensures { IsTrue result ↔ Shows (walked self.now).system (set_at (walked self.now).sets node.0) item };

    /// The least label from `from` on with which a move leaves some member of the node's set; where
    /// there is none, the number of labels.
    fn label_from(&self, node: Node, from: u32) -> u32
        requires node { node.0 < length (walked self.now).sets }
        requires from { from ≤ label_count (walked self.now).system }
        requires walk { IsWalk (walked self.now) }
        ensures { IsLeastFrom (IsTakenIn (walked self.now).system (set_at (walked self.now).sets node.0)) from (label_count (walked self.now).system) result };

    /// What the node's set has, as a row of bits, where the walk keeps it: one bit for each label,
    /// and after them one for quiet.
    fn row(&self, node: Node) -> Option<&[u64]>
        requires node { node.0 < length (walked self.now).sets }
        requires walk { IsWalk (walked self.now) }
        ensures { IfSome result (λ r. IsRowOf (walked self.now).system (set_at (walked self.now).sets node.0) r.now) }
    {
        None
    }

    /// The states of the node's set, in ascending order.
    fn states(&self, node: Node) -> &[u32]
        requires { node.0 < length (walked self.now).sets }
        ensures { result.now ≡ set_at (walked self.now).sets node.0 };

    /// The number of members of all sets together.
    fn members(&self) -> u64
        requires { IsWalk (walked self.now) }
        ensures { result ≡ total_members (walked self.now).sets };
}
