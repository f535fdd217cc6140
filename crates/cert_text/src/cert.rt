//! Certificates: what shows that one system conforms to another, or that it doesn't.
use crate::packed::PackedRelation;
use lts_base::{Item, Mode, Trace};

/// A certificate.
#[derive(Drop, Debug)]
pub struct Cert {
    /// The conformance that is meant.
    pub mode: Mode,
    /// What is stated.
    pub body: CertBody,
}

/// What a certificate states.
#[derive(Drop, Debug)]
pub enum CertBody {
    /// The relation holds the sets of states that are reached together.
    Related(PackedRelation),
    /// The implementation shows an item after the trace that the specification doesn't show.
    Shown {
        /// The trace.
        trace: Trace,
        /// An output or `delta`.
        shown: Item,
    },
}
