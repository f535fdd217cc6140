//! The files of both commands: a system with the digest of its file, and logs that tell of it.
ghost use Rattle.std.specs.Prelude.{◌≡◌, IfOk};
ghost use Rattle.edge_io.specs.Outside.{KeepsFiles};
ghost use Rattle.tool_base.specs.Loads.{IsStopBy};
ghost use Rattle.tool_base.specs.declared.refusal.Refusal.TheVariants.{BadFile};
ghost use Rattle.cmd_replay.specs.Asked.{request_from};
ghost use Rattle.cmd_replay.specs.Logged.{error_of as error_for};
ghost use Rattle.cmd_replay.specs.Given.{LoadsGood, IsGoodOver, good_of};

use crate::words::Request;
use edge_io::Files;
use log_report::{OtherHead, other_head};
use log_text::{Digest, Logs};
use lts_base::{Labels, Lts};
use std::alloc::Global;
use tool_base::{DigestedSystem, FileError, Stop, bad_file, digested_system, load_logs};

/// What the files hold.
#[derive(Drop)]
pub(crate) struct Logged {
    /// The alphabet.
    pub labels: Labels,
    /// The specification.
    pub system: Lts,
    /// The digest of its file.
    pub digest: Digest,
    /// The logs, the heads of which tell of the specification where they tell anything.
    pub logs: Logs,
}

/// The system and the logs of the files that are asked for.
pub(crate) fn load_logged<F: Files>(
    alloc: Global,
    files: &mut F,
    request: &Request<'_>,
) -> Result<Logged, Stop>
    ensures loaded { LoadsGood (F.told files.old) (F.told files.new) (request_from request.now) result }
    ensures over { IfOk result IsGoodOver }
    ensures keeps { KeepsFiles (F.told files.old) (F.told files.new) }
{
    let one = digested_system(
        alloc,
        files,
        request.spec,
        request.sorting,
        request.divergence,
    )?;
    let logs = load_logs(alloc, files, request.logs)?;
    match other_head(logs.as_slice(), &one.digest, request.divergence) {
        Some(other) => Err(other_logs(alloc, request.logs, other)),
        None => Ok(with_logs(one, logs)),
    }
}

/// The files that are read, where the heads are as they should be.
fn with_logs(one: DigestedSystem, logs: Logs) -> Logged
    ensures { result ≡ good_of one logs }
{
    let DigestedSystem {
        labels,
        system,
        digest,
    } = one;
    Logged {
        labels,
        system,
        digest,
        logs,
    }
}

/// What stops the work where a head tells of something else.
fn other_logs(alloc: Global, name: &str, other: OtherHead) -> Stop
    ensures { IsStopBy (BadFile name.now (error_for other)) result }
{
    bad_file(alloc, name, error_of(other))
}

/// What is told of a log with another head.
fn error_of(other: OtherHead) -> FileError
    ensures { result ≡ error_for other }
{
    match other {
        OtherHead::OtherSpec(log) => FileError::OtherSpec(log),
        OtherHead::OtherDivergence(log) => FileError::OtherDivergence(log),
    }
}
