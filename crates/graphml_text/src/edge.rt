//! Edges that ended.
ghost use Rattle.std.specs.Prelude.{◌≡◌, option_map};
ghost use Rattle.graphml_text.specs.MachineValues.{edge_of};

use graphml_scan::{Value, bytes_of};

/// An edge that ended.
#[derive(Drop)]
pub(crate) struct NamedEdge<'a> {
    pub(crate) at: u64,
    pub(crate) source: Value<'a>,
    pub(crate) target: Value<'a>,
    pub(crate) label: Option<Value<'a>>,
}

/// The text of the edge's label.
pub(crate) fn label_of<'b>(edge: &'b NamedEdge) -> Option<&'b [u8]>
    ensures { option_map (λ text. text.now) result ≡ (edge_of edge.now).label }
{
    match &edge.label {
        None => None,
        Some(text) => Some(bytes_of(text)),
    }
}
