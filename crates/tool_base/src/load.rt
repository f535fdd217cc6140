//! Files loaded and read by their kind.
ghost use Rattle.std.specs.Prelude.{◌≡◌, ◌≤◌, ◌∷◌, [], length, MatchResult, IfOk, All};
ghost use Rattle.edge_io.specs.Outside.{KeepsFiles};
ghost use Rattle.lts_base.specs.declared.limits.TheConstants.{MOST_FILE_BYTES};
ghost use Rattle.text_scan.specs.Listing.{IsListing, RefusesListing};
ghost use Rattle.trace_text.specs.Items.{IsItem};
ghost use Rattle.tool_base.specs.Kinds.{aut_kind, graph_kind, is_graphml as names_graphml, system_kind, list_kind, trace_kind, goal_kind, script_kind, cert_kind, logs_kind, IsWithinSteps};
ghost use Rattle.tool_base.specs.Loads.{Loads, LoadsDigested, LoadsTapped, ReadsGraph, IsTooLong, HasShortContent, IsStopBy};

use crate::digest_tap::DigestTap;
use crate::refusal::{FileError, Refusal, Stop};
use aut_text::{AutLoad, read_aut};
use cert_text::{Cert, CertError, read_cert};
use edge_io::{Files, LoadError, NoTap, Tap, load_all};
use graphml_text::{GraphError, read_graphml};
use log_text::{Digest, LogError, Logs, digest_of, read_logs};
use lts_base::limits::{MOST_AUT_BYTES, MOST_CERT_BYTES, MOST_FILE_BYTES};
use lts_base::{Labels, Listed, Memory, PackedTexts, RawLts, Text, Trace};
use script_text::{ScriptError, read_script};
use std::alloc::Global;
use text_scan::{LinesError, read_list};
use trace_text::{TraceError, read_trace};
use walk_core::Choice;

/// The system of a file, which is read by its name.
pub(crate) fn load_system<F: Files>(
    alloc: Global,
    files: &mut F,
    name: &str,
) -> Result<RawLts, Stop>
    ensures loaded { Loads (system_kind name.now) (F.told files.old) (F.told files.new) name.now result }
    ensures keeps { KeepsFiles (F.told files.old) (F.told files.new) }
{
    if is_graphml(name) {
        return load_drawn(alloc, files, name);
    }
    load_written(alloc, files, name, &mut NoTap)
}

/// The system of a file, and the digest of the bytes that it was read from.
pub(crate) fn load_digested<F: Files>(
    alloc: Global,
    files: &mut F,
    name: &str,
) -> Result<(RawLts, Digest), Stop>
    ensures loaded { LoadsDigested (system_kind name.now) (F.told files.old) (F.told files.new) name.now result }
    ensures keeps { KeepsFiles (F.told files.old) (F.told files.new) }
{
    if is_graphml(name) {
        return digest_drawn(alloc, files, name);
    }
    digest_written(alloc, files, name)
}

fn digest_drawn<F: Files>(
    alloc: Global,
    files: &mut F,
    name: &str,
) -> Result<(RawLts, Digest), Stop>
    ensures loaded { LoadsDigested graph_kind (F.told files.old) (F.told files.new) name.now result }
    ensures keeps { KeepsFiles (F.told files.old) (F.told files.new) }
{
    let content = content(alloc, files, name, MOST_FILE_BYTES)?;
    let raw = read_drawn(alloc, name, content.as_slice())?;
    let digest = digest_of(content.as_slice());
    Ok((raw, digest))
}

fn digest_written<F: Files>(
    alloc: Global,
    files: &mut F,
    name: &str,
) -> Result<(RawLts, Digest), Stop>
    ensures loaded { LoadsDigested aut_kind (F.told files.old) (F.told files.new) name.now result }
    ensures keeps { KeepsFiles (F.told files.old) (F.told files.new) }
{
    let mut tap = DigestTap::new();
    let raw = load_written(alloc, files, name, &mut tap)?;
    Ok((raw, tap.digest()))
}

/// Whether the name is that of a GraphML file.
fn is_graphml(name: &str) -> bool
    ensures { result ≡ names_graphml name.now }
{
    name.as_bytes().ends_with(b".graphml")
}

fn load_drawn<F: Files>(alloc: Global, files: &mut F, name: &str) -> Result<RawLts, Stop>
    ensures loaded { Loads graph_kind (F.told files.old) (F.told files.new) name.now result }
    ensures keeps { KeepsFiles (F.told files.old) (F.told files.new) }
{
    let content = content(alloc, files, name, MOST_FILE_BYTES)?;
    let raw = read_drawn(alloc, name, content.as_slice())?;
    Ok(raw)
}

fn read_drawn(alloc: Global, name: &str, content: &[u8]) -> Result<RawLts, Stop>
    ensures { ReadsGraph name.now content.now result }
{
    match read_graphml(alloc, content) {
        Ok(raw) => Ok(raw),
        Err(GraphError::Memory) => Err(Stop::Memory),
        Err(error) => Err(bad_file(alloc, name, FileError::Graph(error))),
    }
}

/// The system of an Aldebaran file, whose bytes go to the tap as they come.
fn load_written<F: Files, T: Tap>(
    alloc: Global,
    files: &mut F,
    name: &str,
    tap: &mut T,
) -> Result<RawLts, Stop>
    ensures loaded { LoadsTapped (F.told files.old) (F.told files.new) name.now (T.took tap.old) (T.took tap.new) result }
    ensures keeps { KeepsFiles (F.told files.old) (F.told files.new) }
{
    match read_aut(alloc, files, name, MOST_AUT_BYTES, tap) {
        Ok(raw) => Ok(raw),
        Err(AutLoad::Failed) => Err(file_fault(alloc, name)),
        Err(AutLoad::TooLong) => Err(too_long(alloc, name)),
        Err(AutLoad::Bad(error)) => Err(bad_file(alloc, name, FileError::Aut(error))),
        Err(AutLoad::Memory) => Err(Stop::Memory),
    }
}

/// The labels that a file lists.
pub(crate) fn load_list<F: Files>(
    alloc: Global,
    files: &mut F,
    name: &str,
) -> Result<PackedTexts, Stop>
    ensures loaded { Loads list_kind (F.told files.old) (F.told files.new) name.now result }
    ensures keeps { KeepsFiles (F.told files.old) (F.told files.new) }
{
    let content = content(alloc, files, name, MOST_FILE_BYTES)?;
    match listed(alloc, content.as_slice()) {
        Ok(inputs) => Ok(inputs),
        Err(LinesError::Memory) => Err(Stop::Memory),
        Err(error) => Err(bad_file(alloc, name, FileError::Lines(error))),
    }
}

/// The trace of a file, over the labels.
pub fn load_trace<F: Files>(
    alloc: Global,
    files: &mut F,
    name: &str,
    labels: &Labels,
) -> Result<Trace, Stop>
    ensures loaded { Loads (trace_kind labels.now) (F.told files.old) (F.told files.new) name.now result }
    ensures items { IfOk result (λ σ. All (IsItem labels.now) σ × (length σ ≤ MOST_FILE_BYTES)) }
    ensures keeps { KeepsFiles (F.told files.old) (F.told files.new) }
{
    let content = content(alloc, files, name, MOST_FILE_BYTES)?;
    match read_trace(alloc, content.as_slice(), labels) {
        Ok(trace) => Ok(trace),
        Err(TraceError::Memory) => Err(Stop::Memory),
        Err(TraceError::UnknownLabel(line)) => {
            Err(bad_file(alloc, name, FileError::UnknownLabel(line)))
        }
    }
}

/// The goal of a file, over the labels, for a session with so many steps.
pub fn load_goal<F: Files>(
    alloc: Global,
    files: &mut F,
    name: &str,
    labels: &Labels,
    steps: u32,
) -> Result<Trace, Stop>
    ensures loaded { Loads (goal_kind labels.now steps) (F.told files.old) (F.told files.new) name.now result }
    ensures within { IfOk result (IsWithinSteps steps) }
    ensures keeps { KeepsFiles (F.told files.old) (F.told files.new) }
{
    let goal = load_trace(alloc, files, name, labels)?;
    let count = goal.as_slice().len();
    if count == 0 || count > steps as usize {
        return Err(bad_file(alloc, name, FileError::GoalLength));
    }
    Ok(goal)
}

/// The script of a file, over the labels.
pub fn load_script<F: Files>(
    alloc: Global,
    files: &mut F,
    name: &str,
    labels: &Labels,
) -> Result<Listed<Choice>, Stop>
    ensures loaded { Loads (script_kind labels.now) (F.told files.old) (F.told files.new) name.now result }
    ensures keeps { KeepsFiles (F.told files.old) (F.told files.new) }
{
    let content = content(alloc, files, name, MOST_FILE_BYTES)?;
    match read_script(alloc, content.as_slice(), labels) {
        Ok(script) => Ok(script),
        Err(ScriptError::Line(line)) => {
            Err(bad_file(alloc, name, FileError::Lines(LinesError::Line(line))))
        }
        Err(ScriptError::UnknownLabel(line)) => {
            Err(bad_file(alloc, name, FileError::UnknownLabel(line)))
        }
        Err(ScriptError::Memory) => Err(Stop::Memory),
    }
}

/// The certificate of a file, over the labels, for systems with so many states.
pub fn load_cert<F: Files>(
    alloc: Global,
    files: &mut F,
    name: &str,
    labels: &Labels,
    imp_states: u32,
    spec_states: u32,
) -> Result<Cert, Stop>
    ensures loaded { Loads (cert_kind labels.now imp_states spec_states) (F.told files.old) (F.told files.new) name.now result }
    ensures keeps { KeepsFiles (F.told files.old) (F.told files.new) }
{
    let content = content(alloc, files, name, MOST_CERT_BYTES)?;
    match read_cert(alloc, content.as_slice(), labels, imp_states, spec_states) {
        Ok(cert) => Ok(cert),
        Err(CertError::Memory) => Err(Stop::Memory),
        Err(error) => Err(bad_file(alloc, name, FileError::Cert(error))),
    }
}

/// The logs of a file.
pub fn load_logs<F: Files>(alloc: Global, files: &mut F, name: &str) -> Result<Logs, Stop>
    ensures loaded { Loads logs_kind (F.told files.old) (F.told files.new) name.now result }
    ensures few { IfOk result (λ logs. length logs ≤ MOST_FILE_BYTES) }
    ensures keeps { KeepsFiles (F.told files.old) (F.told files.new) }
{
    let content = content(alloc, files, name, MOST_FILE_BYTES)?;
    match read_logs(alloc, content.as_slice()) {
        Ok(logs) => Ok(logs),
        Err(LogError::Memory) => Err(Stop::Memory),
        Err(error) => Err(bad_file(alloc, name, FileError::Logs(error))),
    }
}

/// The whole content of a file, which has at most so many bytes.
fn content<F: Files>(alloc: Global, files: &mut F, name: &str, most: u64) -> Result<Text, Stop>
    ensures loaded { MatchResult result (HasShortContent most (F.told files.old) name.now) (IsTooLong most (F.told files.old) (F.told files.new) name.now) }
    ensures keeps { KeepsFiles (F.told files.old) (F.told files.new) }
{
    match load_all(alloc, files, name, most) {
        Ok(content) => Ok(content),
        Err(LoadError::Failed) => Err(file_fault(alloc, name)),
        Err(LoadError::TooLong) => Err(too_long(alloc, name)),
        Err(LoadError::Memory) => Err(Stop::Memory),
    }
}

fn listed(alloc: Global, content: &[u8]) -> Result<PackedTexts, LinesError>
    requires { length content.now ≤ MOST_FILE_BYTES }
    ensures { MatchResult result (IsListing content.now) (RefusesListing content.now) }
{
    read_list(alloc, content)
}

/// The name of a file, as an answer holds it.
pub fn loaded_name(alloc: Global, name: &str) -> Result<Text, Memory>
    ensures { IfOk result (λ text. text ≡ name.now) }
{
    Ok(Listed::from_vec(Vec::from_slice(alloc, name.as_bytes())?))
}

fn file_fault(alloc: Global, name: &str) -> Stop
    ensures { IsStopBy (Refusal.FileFault name.now) result }
{
    match loaded_name(alloc, name) {
        Ok(name) => Stop::Refused(Refusal::FileFault { name }),
        Err(_) => Stop::Memory,
    }
}

fn too_long(alloc: Global, name: &str) -> Stop
    ensures { IsStopBy (Refusal.TooLong name.now) result }
{
    match loaded_name(alloc, name) {
        Ok(name) => Stop::Refused(Refusal::TooLong { name }),
        Err(_) => Stop::Memory,
    }
}

/// What stops the work where a file isn't in its grammar.
pub fn bad_file(alloc: Global, name: &str, error: FileError) -> Stop
    ensures { IsStopBy (Refusal.BadFile name.now error) result }
{
    match loaded_name(alloc, name) {
        Ok(name) => Stop::Refused(Refusal::BadFile { name, error }),
        Err(_) => Stop::Memory,
    }
}
