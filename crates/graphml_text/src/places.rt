//! The places of nodes by numbers in their ids, such as `n12`. An id without such a number has its
//! place in the set of ids alone.
ghost use Rattle.std.specs.Prelude.{◌≡◌, ℕ, ◌<◌, ◌≤◌, List, length, map, Some, IfOk, IfSome};
ghost use Rattle.lts_base.specs.declared.limits.TheConstants.{MOST_STATES};
ghost use Rattle.graphml_text.specs.Places as spec;
ghost use Rattle.graphml_text.specs.Document as document;
ghost use Rattle.graphml_text.specs.MachineValues.{ids_of};

use graphml_scan::Keyed;
use indexmap::IndexSet;
use lts_base::Memory;
use std::alloc::Global;

/// How many numbers there are.
const NUMBERS: usize = 161_051;

/// With so many nodes and fewer, numbers don't pay.
const FEW_NODES: usize = 1_024;

/// The places of nodes whose ids are one byte, the same for all, and a few digits.
#[derive(Drop)]
pub(crate) struct Places {
    first: u8,
    /// For each number 0, or 1 and the place of its node. (The last of the most nodes has no room here.)
    places: Vec<u16>,
}

/// No places.
pub(crate) fn no_places(alloc: Global) -> Places
    ensures { (ids : List (List ℕ)) → spec.IsPlaces ids result }
{
    Places {
        first: 0,
        places: Vec::new(alloc),
    }
}

fn with_digit(digit: u8, number: u32) -> Option<u32>
    ensures { result ≡ spec.with_digit digit (Some number) }
{
    if !digit.is_ascii_digit() {
        return None;
    }
    if number >= 14_641 {
        return None;
    }
    Some(number * 11 + u32::from(digit - 47))
}

fn number_in(digits: &[u8]) -> Option<u32>
    ensures { result ≡ spec.number_in digits.now }
{
    let mut number: u32 = 0;
    let mut rest = digits;
    while let [before @ .., last] = rest {
        let Some(next) = with_digit(*last, number) else {
            return None;
        };
        number = next;
        rest = before;
    }
    Some(number)
}

/// The number in an id that is this byte and a few digits.
pub(crate) fn number_of(first: u8, id: &[u8]) -> Option<u32>
    ensures { result ≡ spec.number_of first id.now }
{
    let [front, digits @ ..] = id else {
        return None;
    };
    if *front != first {
        return None;
    }
    number_in(digits)
}

/// The place of a node's id among the nodes.
pub(crate) fn place_of(nodes: &IndexSet<Vec<u8>, Keyed>, id: &[u8]) -> Option<usize>
    ensures place { result ≡ document.place_of (ids_of nodes.now.keys) id.now }
    ensures within { IfSome result (λ place. place < length nodes.now.keys) }
{
    match nodes.get_index_of(id) {
        None => None,
        Some(place) => Some(place),
    }
}

/// The place of the node of this id, where its number tells it.
pub(crate) fn numbered_place(places: &Places, id: &[u8]) -> Option<usize>
    ensures { (ids : List (List ℕ)) → spec.IsPlaces ids places.now → IfSome result (λ place. document.place_of ids id.now ≡ Some place) }
{
    let Some(number) = number_of(places.first, id) else {
        return None;
    };
    let Some(place) = places.places.get(number as usize) else {
        return None;
    };
    if *place == 0 {
        return None;
    }
    Some(*place as usize - 1)
}

/// Adds the place of this id, if it is a node's and has a number.
fn add_place(nodes: &IndexSet<Vec<u8>, Keyed>, places: &mut Places, id: &[u8])
    requires few { length nodes.now.keys ≤ MOST_STATES }
    requires places { spec.IsPlaces (ids_of nodes.now.keys) places.old }
    ensures { spec.IsPlaces (ids_of nodes.now.keys) places.new }
{
    let Some(place) = place_of(nodes, id) else {
        return;
    };
    let Some(number) = number_of(places.first, id) else {
        return;
    };
    if place >= u16::MAX as usize {
        return;
    }
    if (number as usize) < places.places.len() {
        places.places[number as usize] = place as u16 + 1;
    }
}

/// The first byte of the first id.
pub(crate) fn first_byte(nodes: &IndexSet<Vec<u8>, Keyed>) -> u8 {
    match nodes.get_index(0) {
        None => 0,
        Some(id) => match id.as_slice() {
            [first, ..] => *first,
            [] => 0,
        },
    }
}

/// The places of these nodes.
pub(crate) fn places_of(alloc: Global, nodes: &IndexSet<Vec<u8>, Keyed>) -> Result<Places, Memory>
    requires { length nodes.now.keys ≤ MOST_STATES }
    ensures { IfOk result (spec.IsPlaces (ids_of nodes.now.keys)) }
{
    let numbers = if nodes.len() > FEW_NODES { NUMBERS } else { 0 };
    let mut places = Places {
        first: first_byte(nodes),
        places: vec![in alloc; 0u16; numbers]?,
    };
    for id in nodes.as_slice() {
        add_place(nodes, &mut places, id);
    }
    Ok(places)
}
