//! The lazy walk: it keeps what each step answered, so that a step that was made before does no work on sets.
ghost use Rattle.std.specs.Prelude.{◌≡◌, ◌+◌, ◌<◌, ◌≤◌, [], length, IfOk, IfErr, OnErr, MatchResult};
ghost use Rattle.std.specs.Option.{option_map};
ghost use Rattle.lts_base.specs.declared.limits.TheConstants.{MOST_MEMBERS};
ghost use Rattle.lts_base.specs.System.{IsItemOf};
ghost use Rattle.walk_core.specs.Walked.{IsWalk, IsFresh, IsStep, LeadsTo, Grows};
ghost use Rattle.walk_core.specs.Taken.{Took};
ghost use Rattle.walk_core.specs.Edges.{answer_at, AreKept, KeepsEdge};
ghost use Rattle.walk_core.specs.Refused.{Refuses, RefusesOpening, KeepsAccount};

use crate::edges::{Edges, MOST_EDGES};
use crate::interned::Interned;
use crate::node::Node;
use crate::steps::Steps;
use crate::walk::{Walk, WalkError};
use lts_base::{Item, Lts, Mode};
use std::alloc::Global;
use std::marker::Model;
use std::sync::ledger::Ledger;

/// Sets, and the edges between them.
#[derive(Drop)]
struct Graph<'a> {
    sets: Interned<'a>,
    edges: Edges,
}

impl<'a> Model for Graph<'a> {
    ghost use Rattle.walk_core.specs.Mapped.{Mapped, IsMapped};

    ghost Value = { Mapped };

    ghost view = { λ a. record { walked = a.sets; edges = a.edges.edges } };

    ghost invariant = { λ a. IsMapped a.sets a.edges.edges };
}

impl<'a> Graph<'a> {
    /// The answer that is kept; where none is, that of a step, which is kept as long as there is room.
    fn step(&mut self, node: Node, item: Item) -> Result<Option<Node>, WalkError>
        requires node { node.0 < length self.old.walked.sets }
        requires item { IsItemOf self.old.walked.system item }
        ensures walk { IsWalk self.new.walked }
        ensures grows { Grows self.old.walked self.new.walked }
        ensures ok { IfOk result (λ to. IsStep self.old.walked self.new.walked node.0 item (option_map (λ (n : _). n.0) to)) }
        ensures err { IfErr result (λ e. Refuses self.old.walked node.0 item e) }
        ensures same { OnErr result (self.new ≡ self.old) }
        ensures account { KeepsAccount self.old.walked self.new.walked node.0 item result }
        ensures edge { IfOk result (KeepsEdge self.old.edges self.new.edges node.0 item) }
    {
        if let Some(to) = self.edges.get(node, item) {
            return Ok(to);
        }
        if self.edges.len() >= MOST_EDGES {
            let to = self.sets.step(node, item)?;
            return Ok(to);
        }
        self.edges.reserve()?;
        let to = self.sets.step(node, item)?;
        self.edges.keep(node, item, to);
        Ok(to)
    }

    /// How many edges there are.
    fn edge_count(&self) -> u32
        ensures value { result ≡ length self.now.edges }
        ensures kept { AreKept self.now.edges }
    {
        self.edges.len() as u32
    }
}

/// A walk that borrows its system and keeps its sets in the order in which they were found, and
/// the answers of the first `MOST_EDGES` different steps, by node and item, None included. A step
/// whose answer is kept costs one look-up.
#[derive(Drop)]
pub struct LazyWalk<'a> {
    graph: Graph<'a>,
    // how many steps were taken, modulo 2^64
    taken: u64,
}

impl<'a> Model for LazyWalk<'a> {
    ghost use Rattle.walk_core.specs.Edges.{Kept};

    ghost Value = { Kept };

    ghost view = { λ a. record { walked = a.graph.walked; taken = a.taken; edges = a.graph.edges } };
}

impl<'a> LazyWalk<'a> {
    /// A walk over the system that holds the opening set alone and keeps no edge, with at most
    /// `most` members in all its sets together.
    pub fn new(alloc: Global, lts: &'a Lts, most: u64) -> Result<LazyWalk<'a>, WalkError>
        requires { most ≤ MOST_MEMBERS }
        ensures fresh { IfOk result (λ w. IsFresh w.walked) }
        ensures system { IfOk result (λ w. w.walked.system ≡ lts.now) }
        ensures limit { IfOk result (λ w. w.walked.limit ≡ most) }
        ensures taken { IfOk result (λ w. w.taken ≡ 0) }
        ensures edges { IfOk result (λ w. w.edges ≡ []) }
        ensures err { IfErr result (RefusesOpening lts.now most) }
    {
        let sets = Interned::new(alloc, lts, most)?;
        let graph = Graph {
            sets,
            edges: Edges::new(alloc),
        };
        Ok(LazyWalk { graph, taken: 0 })
    }

    /// The answer that is kept of the step by the item from the node; None where none is.
    pub fn kept(&self, node: Node, item: Item) -> Option<Option<Node>>
        requires { node.0 < length self.now.walked.sets }
        ensures { result ≡ answer_at self.now.edges node.0 item }
    {
        self.graph.edges.get(node, item)
    }

    /// How many edges are kept.
    pub fn edges(&self) -> u32
        ensures value { result ≡ length self.now.edges }
        ensures kept { AreKept self.now.edges }
    {
        self.graph.edge_count()
    }
}

impl<'a> Walk for LazyWalk<'a> {
    ghost walked = { λ w. w.walked };

    ghost taken = { λ w. w.taken };

    fn begin(&self) -> Node {
        self.graph.sets.begin()
    }

    fn step<L: Ledger>(
        &mut self,
        node: Node,
        item: Item,
        steps: &mut Steps<L>,
    ) -> Result<Option<Node>, WalkError>
        requires node { node.0 < length self.old.walked.sets }
        requires item { IsItemOf self.old.walked.system item }
        ensures walk { IsWalk self.new.walked }
        ensures grows { Grows self.old.walked self.new.walked }
        ensures ok { IfOk result (λ to. IsStep self.old.walked self.new.walked node.0 item (option_map (λ (n : _). n.0) to)) }
        ensures after { IfOk result (λ to. LeadsTo self.old.walked self.new.walked node.0 item (option_map (λ (n : _). n.0) to)) }
        ensures err { IfErr result (λ e. Refuses self.old.walked node.0 item e) }
        ensures same { OnErr result (self.new.walked ≡ self.old.walked) }
        ensures account { KeepsAccount self.old.walked self.new.walked node.0 item result }
        ensures taken { Took self.old.taken self.new.taken 1 }
        ensures steps { steps.new ≡ steps.old + 1 }
        ensures edge { IfOk result (KeepsEdge self.old.edges self.new.edges node.0 item) }
        ensures no_edge { OnErr result (self.new.edges ≡ self.old.edges) }
    {
        steps.tick();
        self.taken = self.taken.wrapping_add(1);
        self.graph.step(node, item)
    }

    fn allows(&self, node: Node, mode: Mode, item: Item) -> bool {
        self.graph.sets.allows(node, mode, item)
    }

    fn shows(&self, node: Node, item: Item) -> bool {
        self.graph.sets.shows(node, item)
    }

    fn label_from(&self, node: Node, from: u32) -> u32 {
        self.graph.sets.label_from(node, from)
    }

    fn row(&self, node: Node) -> Option<&[u64]> {
        self.graph.sets.row(node)
    }

    fn states(&self, node: Node) -> &[u32] {
        self.graph.sets.states(node)
    }

    fn members(&self) -> u64 {
        self.graph.sets.members()
    }
}
