//! What is known of a document after the tokens that were read.
ghost use Rattle.std.specs.Prelude.{◌≡◌, option_map};
ghost use Rattle.graphml_text.specs.Element as spec;
ghost use Rattle.graphml_text.specs.Reading.{nothing_read};
ghost use Rattle.graphml_scan.specs.TagValues.{tag_of};
ghost use Rattle.graphml_text.specs.MachineValues.{reading_of};

use crate::element::{is_named, value};
use crate::error::GraphError;
use crate::graph::Graph;
use crate::ids::Ids;
use crate::limits::MOST_DEPTH;
use crate::role::Role;
use graphml_scan::{Tag, Value};
use lts_base::limits::MOST_STATES;
use std::alloc::Global;

/// An element that is open.
#[derive(Drop)]
pub(crate) struct Open<'a> {
    pub(crate) name: &'a [u8],
    pub(crate) at: u64,
    pub(crate) role: Role,
    pub(crate) text: Value<'a>,
}

/// The edge that is open.
#[derive(Drop)]
pub(crate) struct Draft<'a> {
    pub(crate) source: Value<'a>,
    pub(crate) target: Value<'a>,
    pub(crate) labels: Vec<Value<'a>>,
    pub(crate) told: Value<'a>,
}

/// What was read of a document.
#[derive(Drop)]
pub(crate) struct Machine<'a> {
    pub(crate) alloc: Global,
    pub(crate) stack: Vec<Open<'a>>,
    pub(crate) rooted: bool,
    pub(crate) graphed: bool,
    pub(crate) undirected: bool,
    pub(crate) label_keys: Ids<'a>,
    pub(crate) start_keys: Ids<'a>,
    pub(crate) graph: Graph<'a>,
    pub(crate) marked: Option<usize>,
    pub(crate) draft: Option<Draft<'a>>,
}

impl<'a> Machine<'a> {
    /// Nothing was read of this content, which takes no memory.
    pub(crate) fn new(alloc: Global, content: &'a [u8]) -> Machine<'a>
        ensures { reading_of result ≡ nothing_read }
    {
        Machine {
            alloc,
            stack: Vec::new(alloc),
            rooted: false,
            graphed: false,
            undirected: false,
            label_keys: Ids::new(alloc, content),
            start_keys: Ids::new(alloc, content),
            graph: Graph::new(alloc, content),
            marked: None,
            draft: None,
        }
    }
}

/// What the element of the tag is right inside one of this role.
fn role_under(machine: &Machine, tag: &Tag, role: Role) -> Role
    ensures { result ≡ spec.role_under (reading_of machine.now) (tag_of tag.now) role }
{
    match role {
        Role::Root => role_in_root(machine, tag),
        Role::Graph => role_in_graph(tag),
        Role::Node => role_in_node(machine, tag),
        Role::Edge => role_in_edge(machine, tag),
        _ => Role::Passed,
    }
}

fn role_in_root(machine: &Machine, tag: &Tag) -> Role
    ensures { result ≡ spec.role_under (reading_of machine.now) (tag_of tag.now) Role.Root }
{
    if is_named(b"key", tag) {
        if machine.graphed {
            return Role::Passed;
        }
        return Role::Key;
    }
    if is_named(b"graph", tag) {
        return Role::Graph;
    }
    Role::Passed
}

fn role_in_graph(tag: &Tag) -> Role
    ensures { result ≡ spec.role_in_graph (tag_of tag.now) }
{
    if is_named(b"node", tag) {
        return Role::Node;
    }
    if is_named(b"edge", tag) {
        return Role::Edge;
    }
    Role::Passed
}

fn role_in_node(machine: &Machine, tag: &Tag) -> Role
    ensures { result ≡ spec.role_under (reading_of machine.now) (tag_of tag.now) Role.Node }
{
    if !is_named(b"data", tag) {
        return Role::Passed;
    }
    if machine.start_keys.has(value(b"key", tag)) {
        return Role::Mark;
    }
    Role::Passed
}

fn role_in_edge(machine: &Machine, tag: &Tag) -> Role
    ensures { result ≡ spec.role_under (reading_of machine.now) (tag_of tag.now) Role.Edge }
{
    if !is_named(b"data", tag) {
        return Role::Passed;
    }
    if machine.label_keys.has(value(b"key", tag)) {
        return Role::Data;
    }
    Role::Passed
}

fn role_inside(machine: &Machine, tag: &Tag) -> Role
    ensures { result ≡ spec.role_inside (reading_of machine.now) (tag_of tag.now) (spec.innermost (reading_of machine.now)) }
{
    match machine.stack.last() {
        None => Role::Root,
        Some(around) => role_under(machine, tag, around.role),
    }
}

/// What the element of a start tag is.
pub(crate) fn role_of(machine: &Machine, tag: &Tag) -> Role
    ensures { result ≡ spec.role_of (reading_of machine.now) (tag_of tag.now) }
{
    match &machine.draft {
        None => role_inside(machine, tag),
        Some(draft) => {
            if is_named(b"EdgeLabel", tag) {
                return Role::Label(draft.labels.len());
            }
            role_inside(machine, tag)
        }
    }
}

fn is_in_graph(machine: &Machine) -> bool
    ensures { result ≡ spec.is_in_graph (reading_of machine.now) }
{
    for open in &machine.stack {
        if let Role::Graph = open.role {
            return true;
        }
    }
    false
}

fn lacks(machine: &Machine, tag: &Tag, role: Role) -> bool
    ensures { result ≡ spec.lacks (reading_of machine.now) (tag_of tag.now) role }
{
    match role {
        Role::Root => {
            if machine.rooted {
                return true;
            }
            !is_named(b"graphml", tag)
        }
        Role::Node => value(b"id", tag).is_none(),
        Role::Edge => {
            if value(b"source", tag).is_none() {
                return true;
            }
            value(b"target", tag).is_none()
        }
        _ => false,
    }
}

fn is_directed(machine: &Machine, found: Option<&[u8]>) -> bool
    ensures { result ≡ spec.is_directed (reading_of machine.now) (option_map (λ text. text.now) found.entry) }
{
    match found {
        None => !machine.undirected,
        Some(text) => text == b"true".as_slice(),
    }
}

fn edge_fault(at: u64, machine: &Machine, tag: &Tag) -> Option<GraphError>
    ensures { result ≡ spec.edge_fault at (reading_of machine.now) (tag_of tag.now) }
{
    if !is_directed(machine, value(b"directed", tag)) {
        return Some(GraphError::Undirected(at));
    }
    if machine.graph.is_full() {
        return Some(GraphError::TooManyMoves);
    }
    None
}

fn node_fault(at: u64, machine: &Machine, tag: &Tag) -> Option<GraphError>
    ensures { result ≡ spec.node_fault at (reading_of machine.now) (tag_of tag.now) }
{
    if machine.graph.has_node(value(b"id", tag)) {
        return Some(GraphError::DoubleNode(at));
    }
    if machine.graph.node_count() >= MOST_STATES as usize {
        return Some(GraphError::TooManyStates);
    }
    None
}

fn role_fault(at: u64, machine: &Machine, tag: &Tag, role: Role) -> Option<GraphError>
    ensures { result ≡ spec.role_fault at (reading_of machine.now) (tag_of tag.now) role }
{
    match role {
        Role::Edge => edge_fault(at, machine, tag),
        Role::Node => node_fault(at, machine, tag),
        _ => None,
    }
}

fn foreign_fault(at: u64, machine: &Machine, tag: &Tag) -> Option<GraphError>
    ensures { result ≡ spec.foreign_fault at (reading_of machine.now) (tag_of tag.now) }
{
    if !is_in_graph(machine) {
        return None;
    }
    if is_named(b"hyperedge", tag) {
        return Some(GraphError::Hyperedge(at));
    }
    if is_named(b"port", tag) {
        return Some(GraphError::Port(at));
    }
    None
}

fn second_graph(at: u64, machine: &Machine, tag: &Tag) -> Option<GraphError>
    ensures { result ≡ spec.second_graph at (reading_of machine.now) (tag_of tag.now) }
{
    if !machine.graphed {
        return None;
    }
    if is_named(b"graph", tag) {
        return Some(GraphError::SecondGraph(at));
    }
    None
}

/// The first fault of a start tag.
pub(crate) fn start_fault(at: u64, machine: &Machine, tag: &Tag, role: Role) -> Option<GraphError>
    ensures { result ≡ spec.start_fault at (reading_of machine.now) (tag_of tag.now) role }
{
    if lacks(machine, tag, role) {
        return Some(GraphError::Malformed(at));
    }
    if machine.stack.len() >= MOST_DEPTH {
        return Some(GraphError::TooDeep(at));
    }
    if let Some(fault) = second_graph(at, machine, tag) {
        return Some(fault);
    }
    if let Some(fault) = foreign_fault(at, machine, tag) {
        return Some(fault);
    }
    role_fault(at, machine, tag, role)
}
