//! The texts of certificates of conformance: their printer and their reader.
#![tactic(auto)]

mod cert;
mod error;
mod line;
mod listing;
mod number;
mod packed;
mod pairing;
mod piece;
mod printer;
mod reader;
mod stage;
mod tracing;

pub use cert::{Cert, CertBody};
pub use error::CertError;
pub use packed::{PackedLists, PackedRelation};
pub use printer::print_cert;
pub use reader::read_cert;
