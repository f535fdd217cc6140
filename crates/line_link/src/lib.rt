//! Links whose lines come over a stream, and those by TCP.
#![tactic(auto)]

pub mod laws;
mod line_buffer;
mod meet;
pub mod over_stream;
mod put;
pub mod tcp_dialer;

pub use over_stream::{LineLink, LinkRefused};
pub use tcp_dialer::TcpDialer;
