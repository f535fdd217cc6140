//! The simulated implementation as a program: it takes the place of a program under test.
#![tactic(auto)]

#[cfg(test)]
mod link_tests;
#[cfg(test)]
mod tests;

use edge_io::{HostFiles, HostSink, TcpDoor};
use sim_serve::{arguments, program};
use std::process::ExitCode;
use std::{env, io};

fn main(rt: HostRuntime) -> ExitCode {
    let mut out = HostSink::new(io::writer(&rt));
    let mut files = HostFiles::new(&rt);
    let mut door = TcpDoor::new(&rt);
    let given = arguments(rt.alloc(), env::args(&rt));
    let status = program(rt.alloc(), given, &mut files, &mut out, &mut door);
    ExitCode::from(status.code())
}
