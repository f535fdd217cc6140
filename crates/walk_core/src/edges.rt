//! The edges of a walk: what each step that was made answered.
ghost use Rattle.std.specs.Prelude.{◌≡◌, ℕ, ◌+◌, ◌/◌, ◌<◌, ◌≤◌, ◌↔◌, eqb, [], length, None, IsTrue, IfSome, OnOk};
ghost use Rattle.std.specs.List.{IsDistinct};
ghost use Rattle.std.specs.List.Sorted.{IsPartitionPoint};
ghost use Rattle.std.specs.Map.{lookup, keys_of};
ghost use Rattle.walk_core.specs.Edges.{answer_at, edge_key};
ghost use Rattle.walk_core.specs.Listed.{IsAscending, IsAbove, IsInserted};
ghost use Rattle.walk_core.specs.Packing.{key_from, edge_of, edges_of};

use crate::node::Node;
use crate::packed::{ANSWERS, answer_in, head_in, head_of, pack, place_of_item};
use indexmap::IndexMap;
use lts_base::{Item, Memory};
use std::alloc::Global;
use std::marker::Model;

/// The most edges that a walk keeps.
pub const MOST_EDGES: usize = 16_777_216;

/// The answers of steps by node and item, each as one number; the numbers come from the walk, and
/// not from a file.
#[derive(Drop)]
pub(crate) struct Edges {
    // those that came in ascending order, as a search by breadth makes them, and can be packed: 8
    // bytes each
    run: Vec<u64>,
    // the others
    rest: IndexMap<u64, Option<Node>>,
}

impl Model for Edges {
    ghost use Rattle.std.specs.Prelude.{◌-◌, ◌++◌, length};
    ghost use Rattle.indexmap.specs.IndexMap.{spare};
    ghost use Rattle.walk_core.specs.Listed.{Listed, IsAscending};
    ghost use Rattle.walk_core.specs.Packing.{edges_of};

    ghost Value = { Listed };

    ghost view = { λ a. record { edges = edges_of a.run.items ++ a.rest.entries; run_room = a.run.cap - length a.run.items; rest_room = spare a.rest } };

    ghost invariant = { λ a. IsAscending a.run.items };
}

fn key_of(node: Node, item: Item) -> u64
    ensures { result ≡ edge_key node.0 item }
{
    node.0 as u64 * 4_294_967_296 + place_of_item(item) as u64
}

/// Whether the upper part is above all of the run.
fn is_above(run: &[u64], head: u64) -> bool
    requires { IsAscending run.now }
    ensures { IsTrue result → IsAbove run.now head }
{
    let count = run.len();
    if count == 0 {
        return true;
    }
    head_in(run[count - 1]) < head
}

/// The place of the first edge with this upper part or a later one.
fn place_of(run: &[u64], head: u64) -> usize
    requires { IsAscending run.now }
    ensures within { result ≤ length run.now }
    ensures point { IsPartitionPoint (λ (e : ℕ). e / 16777216 < head) (λ (e : ℕ). head ≤ e / 16777216) run.now result }
{
    if is_above(run, head) {
        return run.len();
    }
    run.partition_point(|packed| *packed / ANSWERS < head)
}

/// The answer of the edge of the run with this upper part, if there is one.
fn with_head(run: &[u64], head: u64) -> Option<Option<Node>>
    requires { IsAscending run.now }
    ensures { result ≡ lookup (eqb (key_from head)) (edges_of run.now) }
{
    let place = place_of(run, head);
    if place >= run.len() {
        return None;
    }
    let packed = run[place];
    if head_in(packed) == head {
        return Some(answer_in(packed));
    }
    None
}

/// The answer of the edge of the run with this node and item, if there is one.
fn in_run(run: &[u64], node: Node, item: Item) -> Option<Option<Node>>
    requires { IsAscending run.now }
    ensures { result ≡ lookup (eqb (edge_key node.0 item)) (edges_of run.now) }
{
    match head_of(node, item) {
        Some(head) => with_head(run, head),
        None => None,
    }
}

/// The edge as one number, where it can go to the end of the run.
fn next_packed(run: &[u64], node: Node, item: Item, to: Option<Node>) -> Option<u64>
    requires { IsAscending run.now }
    ensures above { IfSome result (λ packed. IsAbove run.now (packed / 16777216)) }
    ensures edge { IfSome result (λ packed. edge_of packed ≡ (edge_key node.0 item, to)) }
{
    let head = head_of(node, item)?;
    if !is_above(run, head) {
        return None;
    }
    let packed = pack(head, to)?;
    Some(packed)
}

/// The answer of the edge of the rest with this number, if there is one.
fn in_rest(rest: &IndexMap<u64, Option<Node>>, key: u64) -> Option<Option<Node>>
    ensures { result ≡ lookup (eqb key) rest.now.entries }
{
    if rest.len() == 0 {
        return None;
    }
    let to = rest.get(&key)?;
    Some(*to)
}

impl Edges {
    /// No edges.
    pub(crate) fn new(alloc: Global) -> Edges
        ensures { result.edges ≡ [] }
    {
        Edges {
            run: Vec::new(alloc),
            rest: IndexMap::new(alloc),
        }
    }

    /// How many edges there are.
    pub(crate) fn len(&self) -> usize
        ensures { result ≡ length self.now.edges }
    {
        self.run.len() + self.rest.len()
    }

    /// The answer of the edge of this node and item, if there is one.
    pub(crate) fn get(&self, node: Node, item: Item) -> Option<Option<Node>>
        ensures { result ≡ answer_at self.now.edges node.0 item }
    {
        if let Some(to) = in_run(&self.run, node, item) {
            return Some(to);
        }
        in_rest(&self.rest, key_of(node, item))
    }

    /// Makes room for one more edge.
    pub(crate) fn reserve(&mut self) -> Result<(), Memory>
        ensures same { self.new.edges ≡ self.old.edges }
        ensures run { OnOk result (0 < self.new.run_room) }
        ensures rest { OnOk result (0 < self.new.rest_room) }
    {
        self.run.reserve(1)?;
        self.rest.reserve(1)?;
        Ok(())
    }

    /// Adds the edge, which isn't there.
    pub(crate) fn keep(&mut self, node: Node, item: Item, to: Option<Node>)
        requires run { 0 < self.old.run_room }
        requires rest { 0 < self.old.rest_room }
        requires absent { answer_at self.old.edges node.0 item ≡ None }
        ensures edges { IsInserted self.old.edges self.new.edges (edge_key node.0 item) to }
        ensures once { IsDistinct eqb (keys_of self.old.edges) → IsDistinct eqb (keys_of self.new.edges) }
    {
        if let Some(packed) = next_packed(&self.run, node, item, to) {
            match self.run.push(packed) {
                Ok(_) => return,
                Err(_) => unreachable!(),
            }
        }
        match self.rest.insert(key_of(node, item), to) {
            Ok(_) => (),
            Err(_) => unreachable!(),
        }
    }
}
