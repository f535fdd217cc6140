//! The checker of conformance: compares labelled transition systems from files.
#![tactic(auto)]

mod answer;
#[cfg(test)]
mod cert_tests;
mod commands;
#[cfg(test)]
mod drive_tests;
#[cfg(test)]
mod graph_limit_tests;
#[cfg(test)]
mod graph_tests;
#[cfg(test)]
mod line_tests;
#[cfg(test)]
mod log_tests;
#[cfg(test)]
mod log_text_tests;
mod program;
#[cfg(test)]
mod reader_tests;
mod run;
#[cfg(test)]
mod session_tests;
mod status;
#[cfg(test)]
mod stream_tests;
#[cfg(test)]
mod table;
#[cfg(test)]
mod tests;
#[cfg(test)]
mod word_tests;

use crate::program::{arguments, program};
use edge_io::{HostFiles, HostSink};
use line_link::TcpDialer;
use std::process::ExitCode;
use std::{env, io};

fn main(rt: HostRuntime) -> ExitCode {
    let mut out = HostSink::new(io::writer(&rt));
    let mut files = HostFiles::new(&rt);
    let mut dialer = TcpDialer::new(rt.alloc(), &rt);
    let given = arguments(rt.alloc(), env::args(&rt));
    let status = program(rt.alloc(), given, &mut files, &mut out, &mut dialer);
    ExitCode::from(status.code())
}
