//! What can be seen of a system: inputs, outputs and quiescence; and the two conformance relations.
ghost use Rattle.std.specs.Prelude.{◌≡◌};
ghost use Rattle.std.specs.Ordering.{nat_cmp};
ghost use Rattle.lts_base.specs.System.{System, IsItemOf, label_count};
ghost use Rattle.lts_base.specs.Order.{place};

use crate::list::Listed;
use std::cmp::Ordering;

/// One place of a suspension trace. The number is the label's number in the alphabet.
#[derive(Clone, Copy, PartialEq, Eq, PartialOrd, Ord, Hash, Debug)]
pub enum Item {
    /// An input.
    Input(u32),
    /// An output.
    Output(u32),
    /// Quiescence, written `delta`.
    Delta,
}

/// The conformance relation that is asked for (Tretmans, "Model Based Testing with Labelled
/// Transition Systems").
#[derive(Clone, Copy, PartialEq, Eq, PartialOrd, Ord, Hash, Debug)]
pub enum Mode {
    /// Input-output conformance: every suspension trace of the specification counts.
    Ioco,
    /// The same over Utraces, along which no input is underspecified.
    Uioco,
}

/// A suspension trace, or a candidate for one.
pub type Trace = Listed<Item>;

/// How the items of an alphabet are ordered: inputs, then outputs, by their labels' numbers, and
/// `delta` last. It is the order that the type derives, so lists of items may be sorted by it.
pub fn item_order(one: Item, other: Item) -> Ordering
    ensures { (s : System) → IsItemOf s one → IsItemOf s other → result ≡ nat_cmp (place (label_count s) one) (place (label_count s) other) }
{
    one.cmp(&other)
}
