//! The nodes and the edges that were read. An edge that ends after the nodes that it joins is kept as
//! a move, which takes less than its texts do.
ghost use Rattle.lts_base.specs.declared.limits.TheConstants.{MOST_MOVES, MOST_STATES};
ghost use Rattle.std.specs.Prelude.{◌≡◌, ◌≤◌, nat_le, [], ◌∷◌, ◌++◌, length, option_map, All, IsTrue, IsFalse, OnOk, MatchResult};
ghost use Rattle.graphml_text.specs.Element as spec;
ghost use Rattle.graphml_text.specs.MachineValues.{edge_of};
ghost use Rattle.graphml_text.specs.Kept.{IsLabelled};
ghost use Rattle.graphml_text.specs.Ends.{AreEdges, IsEdgesFault};

use crate::edge::NamedEdge;
use crate::error::GraphError;
use crate::ids::Ids;
use crate::moves::{ends_of, keep, moves_of};
use crate::places::{Places, no_places, places_of};
use aut_text::RawParts;
use lts_base::Memory;
use lts_base::limits::{MOST_MOVES, MOST_STATES};
use std::alloc::Global;
use std::marker::Model;

/// The nodes by their ids, and the edges. Contracts see the ids and the edges by their names.
#[derive(Drop)]
pub(crate) struct Graph<'a> {
    alloc: Global,
    nodes: Ids<'a>,
    places: Places,
    // the place of the source of the edge that was joined last
    near: Option<usize>,
    // the first edges, as moves, and the offset of each
    parts: RawParts,
    offsets: Vec<u32>,
    // the edges from the first one that didn't join nodes when it ended
    named: Vec<NamedEdge<'a>>,
}

impl<'a> Model for Graph<'a> {
    ghost use Rattle.graphml_text.specs.Graph.{Graph as Whole};

    ghost Value = { Whole };

    ghost use Rattle.std.specs.Prelude.{◌++◌, map};
    ghost use Rattle.aut_text.specs.Parts.{named_moves};
    ghost use Rattle.graphml_text.specs.MachineValues.{edge_of};
    ghost use Rattle.graphml_text.specs.Joined.{joined_of, IsHeld};

    ghost view = { λ a. record { ids = a.nodes; edges = joined_of a.nodes a.offsets.items (named_moves a.parts) ++ map edge_of a.named.items } };

    ghost invariant = { λ a. IsHeld a.nodes a.places a.near a.offsets.items a.parts };
}

impl<'a> Graph<'a> {
    /// No node and no edge of this content, which takes no memory.
    pub(crate) fn new(alloc: Global, content: &'a [u8]) -> Graph<'a>
        ensures { result ≡ record { ids = []; edges = [] } }
    {
        Graph {
            alloc,
            nodes: Ids::new(alloc, content),
            places: no_places(alloc),
            near: None,
            parts: RawParts::new(alloc),
            offsets: Vec::new(alloc),
            named: Vec::new(alloc),
        }
    }

    /// How many nodes there are.
    pub(crate) fn node_count(&self) -> usize
        ensures { result ≡ length self.now.ids }
    {
        self.nodes.len()
    }

    /// Whether there is an id, and it is a node's.
    pub(crate) fn has_node(&self, id: Option<&[u8]>) -> bool
        ensures { result ≡ spec.has_value self.now.ids (option_map (λ text. text.now) id.entry) }
    {
        self.nodes.has(id)
    }

    /// Whether there are as many edges as there may be.
    pub(crate) fn is_full(&self) -> bool
        ensures { result ≡ nat_le MOST_MOVES (length self.now.edges) }
    {
        let named = self.named.len();
        if named >= MOST_MOVES as usize {
            return true;
        }
        self.offsets.len() + named >= MOST_MOVES as usize
    }

    /// Adds a node, unless it is there.
    pub(crate) fn add_node(&mut self, id: Vec<u8>) -> Result<(), Memory>
        ensures { OnOk result (self.new ≡ record { ids = spec.with_id self.old.ids id.items; edges = self.old.edges }) }
    {
        self.nodes.insert(id)?;
        Ok(())
    }

    /// Adds an edge.
    pub(crate) fn add_edge(&mut self, edge: NamedEdge<'a>) -> Result<(), Memory>
        requires { IsLabelled (edge_of edge) }
        ensures { OnOk result (self.new ≡ record { ids = self.old.ids; edges = self.old.edges ++ edge_of edge.entry ∷ [] }) }
    {
        self.prepare()?;
        if self.join(&edge) {
            return Ok(());
        }
        self.named.push(edge)?;
        Ok(())
    }

    /// Makes the places of the nodes before the first edge.
    fn prepare(&mut self) -> Result<(), Memory>
        ensures { self.new ≡ self.old }
    {
        if !self.offsets.as_slice().is_empty() {
            return Ok(());
        }
        if !self.named.as_slice().is_empty() {
            return Ok(());
        }
        if self.nodes.len() > MOST_STATES as usize {
            return Ok(());
        }
        self.places = places_of(self.alloc, self.nodes.set())?;
        Ok(())
    }

    /// Adds an edge as a move; false where it doesn't join nodes that are known, or stands after one
    /// that didn't.
    fn join(&mut self, edge: &NamedEdge<'a>) -> bool
        requires { IsLabelled (edge_of edge.now) }
        ensures joined { IsTrue result → self.new ≡ record { ids = self.old.ids; edges = self.old.edges ++ edge_of edge.now ∷ [] } }
        ensures not { IsFalse result → self.new ≡ self.old }
    {
        if !self.named.as_slice().is_empty() {
            return false;
        }
        if self.nodes.len() > MOST_STATES as usize {
            return false;
        }
        let Some(ends) = ends_of(self.nodes.set(), &self.places, self.near, edge) else {
            return false;
        };
        if !keep(&mut self.parts, &mut self.offsets, &ends, edge) {
            return false;
        }
        self.near = Some(ends.from as usize);
        true
    }

    /// The moves of the edges, if all edges join nodes.
    pub(crate) fn into_parts(self) -> Result<RawParts, GraphError>
        requires nodes { length self.ids ≤ MOST_STATES }
        requires few { length self.edges ≤ MOST_MOVES }
        requires labels { All IsLabelled self.edges }
        ensures { MatchResult result (AreEdges self.entry.ids self.entry.edges) (IsEdgesFault self.entry.ids self.entry.edges) }
    {
        if self.named.as_slice().is_empty() {
            return Ok(self.parts);
        }
        let parts = self.parts;
        let nodes = self.nodes.set();
        let places = places_of(self.alloc, nodes)?;
        match moves_of(nodes, &places, parts, &self.named) {
            Ok(parts) => Ok(parts),
            Err(fault) => Err(fault),
        }
    }
}
