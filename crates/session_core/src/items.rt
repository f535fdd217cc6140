//! Items beside each other.
ghost use Rattle.std.specs.Prelude.{◌≡◌, ◌↔◌, IsTrue};
ghost use Rattle.session_core.specs.Answered.{same_item};

use lts_base::Item;

/// Whether these are the same item.
pub(crate) fn same_item(left: Item, right: Item) -> bool
    ensures { result ≡ same_item left right }
{
    match (left, right) {
        (Item::Input(a), Item::Input(b)) => a == b,
        (Item::Output(a), Item::Output(b)) => a == b,
        (Item::Delta, Item::Delta) => true,
        _ => false,
    }
}

/// Whether these are the same items in the same order.
pub(crate) fn same_items(left: &[Item], right: &[Item]) -> bool
    ensures { IsTrue result ↔ (left.now ≡ right.now) }
{
    if left.len() != right.len() {
        return false;
    }
    let mut at = 0;
    while at < left.len() {
        if !same_item(left[at], right[at]) {
            return false;
        }
        at += 1;
    }
    true
}
