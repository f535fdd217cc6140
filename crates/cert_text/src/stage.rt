//! How far a certificate has been read.
use crate::cert::Cert;
use crate::packed::PackedRelation;
use lts_base::{Item, Mode, Trace};

/// What the lines so far say.
#[derive(Drop, Debug)]
pub enum Stage {
    /// There is no line yet.
    Opening,
    /// The title.
    Titled,
    /// The title and the mode.
    Moded(Mode),
    /// The beginning of a relation.
    Pairing(Mode, PackedRelation),
    /// The beginning of a trace.
    Tracing(Mode, Trace),
    /// A trace and the item that is shown after it.
    Showing(Mode, Trace, Item),
    /// All lines.
    Ended(Cert),
}
