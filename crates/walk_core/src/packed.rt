//! An edge of a walk in one number of 64 bits: 24 for the node, 16 for the item, 24 for the answer.
ghost use Rattle.std.specs.Prelude.{◌≡◌, ℕ, ◌/◌, ◌%◌, ◌<◌, ◌≤◌, None, IfSome};
ghost use Rattle.lts_base.specs.Order.{place};
ghost use Rattle.walk_core.specs.Edges.{edge_key};
ghost use Rattle.walk_core.specs.Packing.{place_from, key_from, answer_from, edge_of};

use crate::node::Node;
use lts_base::Item;

/// What the answer in a packed edge is below.
pub(crate) const ANSWERS: u64 = 16_777_216;

/// What the upper part of a packed edge is below.
const HEADS: u64 = 1_099_511_627_776;

/// The place of the item among those of a system with as many labels as there can be.
pub(crate) fn place_of_item(item: Item) -> u32
    ensures { result ≡ place 4294967295 item }
{
    match item {
        Item::Input(label) => label,
        Item::Output(label) => label,
        Item::Delta => u32::MAX,
    }
}

/// The code of 16 bits that stands for this place, if there is one.
fn code_of(at: u32) -> Option<u64>
    ensures some { IfSome result (λ code. (code < 65536) × (place_from code ≡ at)) }
    ensures none { result ≡ None → (65535 ≤ at) × (at < 4294967295) }
{
    if at < 65_535 {
        return Some(at as u64);
    }
    if at == u32::MAX {
        return Some(65_535);
    }
    None
}

/// The upper part of a packed edge with this node and item; None where the item has no code.
pub(crate) fn head_of(node: Node, item: Item) -> Option<u64>
    ensures some { IfSome result (λ head. key_from head ≡ edge_key node.0 item) }
    ensures none { result ≡ None → (head : ℕ) → key_from head ≡ edge_key node.0 item → ⊥ }
{
    let code = code_of(place_of_item(item))?;
    Some(node.0 as u64 * 65_536 + code)
}

/// The upper part of a packed edge.
pub(crate) fn head_in(packed: u64) -> u64
    ensures { result ≡ packed / 16777216 }
{
    packed / ANSWERS
}

/// The answer in a packed edge.
pub(crate) fn answer_in(packed: u64) -> Option<Node>
    ensures { result ≡ answer_from (packed % 16777216) }
{
    let low = packed % ANSWERS;
    if low == 0 {
        return None;
    }
    Some(Node(low as u32 - 1))
}

/// The edge with this upper part and answer in one number, where both fit.
pub(crate) fn pack(head: u64, to: Option<Node>) -> Option<u64>
    ensures head { IfSome result (λ packed. packed / 16777216 ≡ head) }
    ensures edge { IfSome result (λ packed. edge_of packed ≡ (key_from head, to)) }
{
    let low = match to {
        None => 0,
        Some(node) => node.0 as u64 + 1,
    };
    if head >= HEADS || low >= ANSWERS {
        return None;
    }
    Some(head * ANSWERS + low)
}
