//! The moves of edges.
ghost use Rattle.lts_base.specs.declared.limits.TheConstants.{MOST_MOVES, MOST_STATES};
ghost use Rattle.std.specs.Prelude.{◌≡◌, ◌+◌, ◌++◌, ◌<◌, ◌≤◌, true, length, map, List, All, IfSome, IsTrue, IsFalse, MatchResult, MatchOption};
ghost use Rattle.aut_text.specs.Parts.{AddsMove};
ghost use Rattle.graphml_text.specs.Document as spec;
ghost use Rattle.graphml_text.specs.Reading.{NamedEdge as ReadEdge};
ghost use Rattle.graphml_text.specs.MachineValues.{edge_of, ids_of};
ghost use Rattle.graphml_text.specs.Kept.{IsLabelled};
ghost use Rattle.graphml_text.specs.Ends.{HasEnds, Joins, IsEdgeFault, AreEdges, IsEdgesFault, IsNear};
ghost use Rattle.graphml_text.specs.Joined.{Keeps};
ghost use Rattle.graphml_text.specs.Places.{IsPlaces};

use crate::edge::{NamedEdge, label_of};
use crate::error::GraphError;
use crate::places::{Places, numbered_place, place_of};
use aut_text::RawParts;
use graphml_scan::{Keyed, bytes_of, is_same};
use indexmap::IndexSet;
use lts_base::limits::MOST_MOVES;

/// The places of an edge's ends among the nodes.
#[derive(Drop, Clone, Copy)]
pub(crate) struct Ends {
    pub(crate) from: u32,
    pub(crate) to: u32,
}

/// The place of a node's id among the nodes.
fn found_place(nodes: &IndexSet<Vec<u8>, Keyed>, places: &Places, id: &[u8]) -> Option<usize>
    requires { IsPlaces (ids_of nodes.now.keys) places.now }
    ensures place { result ≡ spec.place_of (ids_of nodes.now.keys) id.now }
    ensures within { IfSome result (λ place. place < length nodes.now.keys) }
{
    match numbered_place(places, id) {
        Some(place) => Some(place),
        None => place_of(nodes, id),
    }
}

/// Whether the id is that of the node at this place.
fn is_near(nodes: &IndexSet<Vec<u8>, Keyed>, near: Option<usize>, id: &[u8]) -> bool
    requires { IsNear (ids_of nodes.now.keys) near }
    ensures { IsTrue result → near ≡ spec.place_of (ids_of nodes.now.keys) id.now }
{
    let Some(place) = near else {
        return false;
    };
    match nodes.get_index(place) {
        Some(known) => is_same(known.as_slice(), id),
        None => false,
    }
}

/// The place of a source's id among the nodes; edges of one source often follow one another, so that
/// the place of the source before is tried first.
fn source_place(
    nodes: &IndexSet<Vec<u8>, Keyed>,
    places: &Places,
    near: Option<usize>,
    id: &[u8],
) -> Option<usize>
    requires places { IsPlaces (ids_of nodes.now.keys) places.now }
    requires near { IsNear (ids_of nodes.now.keys) near }
    ensures place { result ≡ spec.place_of (ids_of nodes.now.keys) id.now }
    ensures within { IfSome result (λ place. place < length nodes.now.keys) }
{
    if is_near(nodes, near, id) {
        return near;
    }
    found_place(nodes, places, id)
}

/// The ends of the edge, if both are nodes.
pub(crate) fn ends_of(
    nodes: &IndexSet<Vec<u8>, Keyed>,
    places: &Places,
    near: Option<usize>,
    edge: &NamedEdge,
) -> Option<Ends>
    requires nodes { length nodes.now.keys ≤ MOST_STATES }
    requires places { IsPlaces (ids_of nodes.now.keys) places.now }
    requires near { IsNear (ids_of nodes.now.keys) near }
    ensures { MatchOption result (spec.is_loose (ids_of nodes.now.keys) (edge_of edge.now) ≡ true) (HasEnds (ids_of nodes.now.keys) (edge_of edge.now)) }
{
    let Some(from) = source_place(nodes, places, near, bytes_of(&edge.source)) else {
        return None;
    };
    let Some(to) = found_place(nodes, places, bytes_of(&edge.target)) else {
        return None;
    };
    Some(Ends {
        from: from as u32,
        to: to as u32,
    })
}

/// Adds the move of an edge with these ends; false where there is no memory.
fn add_move(parts: &mut RawParts, ends: &Ends, edge: &NamedEdge) -> bool
    requires few { length parts.old.moves < MOST_MOVES }
    requires label { IsLabelled (edge_of edge.now) }
    ensures added { IsTrue result → AddsMove parts.old parts.new (record { from = ends.now.from; label = (edge_of edge.now).label; to = ends.now.to }) }
    ensures not { IsFalse result → parts.new ≡ parts.old }
{
    // most edges have a label that an edge before them has
    if parts.push_known(ends.from, label_of(edge), ends.to) {
        return true;
    }
    match parts.push(ends.from, label_of(edge), ends.to) {
        Ok(()) => true,
        Err(_) => false,
    }
}

/// Adds the move of an edge with these ends, and its offset; false where that can't be.
pub(crate) fn keep(
    parts: &mut RawParts,
    offsets: &mut Vec<u32>,
    ends: &Ends,
    edge: &NamedEdge,
) -> bool
    requires label { IsLabelled (edge_of edge.now) }
    ensures kept { IsTrue result → Keeps ends.now (edge_of edge.now) parts.old offsets.old.items parts.new offsets.new.items }
    ensures parts { IsFalse result → parts.new ≡ parts.old }
    ensures offsets { IsFalse result → offsets.new.items ≡ offsets.old.items }
{
    if parts.count() >= MOST_MOVES as usize {
        return false;
    }
    let Ok(at) = u32::try_from(edge.at) else {
        return false;
    };
    if offsets.reserve(1).is_err() {
        return false;
    }
    if !add_move(parts, ends, edge) {
        return false;
    }
    offsets.push_reserved(at);
    true
}

/// Adds the move of the edge.
fn add_edge(
    nodes: &IndexSet<Vec<u8>, Keyed>,
    places: &Places,
    parts: &mut RawParts,
    near: &mut Option<usize>,
    edge: &NamedEdge,
) -> Result<(), GraphError>
    requires nodes { length nodes.now.keys ≤ MOST_STATES }
    requires places { IsPlaces (ids_of nodes.now.keys) places.now }
    requires near { IsNear (ids_of nodes.now.keys) near.old }
    requires few { length parts.old.moves < MOST_MOVES }
    requires label { IsLabelled (edge_of edge.now) }
    ensures near { IsNear (ids_of nodes.now.keys) near.new }
    ensures edge { MatchResult result (λ _. Joins nodes.now.keys edge.now parts.old parts.new) (IsEdgeFault (ids_of nodes.now.keys) (edge_of edge.now)) }
{
    let Some(ends) = ends_of(nodes, places, *near, edge) else {
        return Err(GraphError::UnknownNode(edge.at));
    };
    *near = Some(ends.from as usize);
    if add_move(parts, &ends, edge) {
        return Ok(());
    }
    Err(GraphError::Memory)
}

/// The moves of these edges after the moves before, if all edges join nodes.
pub(crate) fn moves_of(
    nodes: &IndexSet<Vec<u8>, Keyed>,
    places: &Places,
    before: RawParts,
    edges: &[NamedEdge],
) -> Result<RawParts, GraphError>
    requires nodes { length nodes.now.keys ≤ MOST_STATES }
    requires places { IsPlaces (ids_of nodes.now.keys) places.now }
    requires few { length before.moves + length edges.now ≤ MOST_MOVES }
    requires labels { All IsLabelled (map edge_of edges.now) }
    ensures { (es : List ReadEdge) → AreEdges (ids_of nodes.now.keys) es before → MatchResult result (AreEdges (ids_of nodes.now.keys) (es ++ map edge_of edges.now)) (IsEdgesFault (ids_of nodes.now.keys) (es ++ map edge_of edges.now)) }
{
    let mut parts = before;
    let mut near = None;
    for edge in edges {
        match add_edge(nodes, places, &mut parts, &mut near, edge) {
            Ok(()) => {}
            Err(fault) => return Err(fault),
        }
    }
    Ok(parts)
}
