//! The texts of the faults of files.
ghost use Rattle.std.specs.Prelude.{◌≡◌, ◌++◌, IfOk, codes, decimal, string_bytes};
ghost use Rattle.tool_base.specs.Texts.{aut_error_text, graph_error_text, at_offset as offset_text, list_error_text, cert_error_text, log_error_text, error_text};

use crate::refusal::FileError;
use aut_text::AutError;
use cert_text::CertError;
use graphml_text::GraphError;
use log_text::LogError;
use std::alloc::{AllocError, Global};
use text_scan::LinesError;

/// What is told of the fault of a file.
pub(crate) fn file_error(alloc: Global, error: &FileError) -> Result<String, AllocError>
    ensures { IfOk result (λ text. string_bytes text ≡ error_text error.now) }
{
    match error {
        FileError::Aut(error) => aut_error(alloc, error),
        FileError::Graph(error) => graph_error(alloc, error),
        FileError::Lines(error) => list_error(alloc, error),
        FileError::Cert(error) => cert_error(alloc, error),
        FileError::Logs(error) => log_error(alloc, error),
        FileError::OtherSpec(log) => at_line(alloc, "other-spec ", *log),
        FileError::OtherDivergence(log) => at_line(alloc, "other-divergence ", *log),
        FileError::UnknownLabel(line) => at_line(alloc, "unknown-label ", *line),
        FileError::GoalLength => String::from_str(alloc, "goal-length"),
    }
}

fn graph_error(alloc: Global, error: &GraphError) -> Result<String, AllocError>
    ensures { IfOk result (λ text. string_bytes text ≡ graph_error_text error.now) }
{
    match error {
        GraphError::Malformed(offset) => at_offset(alloc, "malformed", *offset),
        GraphError::Doctype(offset) => at_offset(alloc, "doctype", *offset),
        GraphError::Encoding => String::from_str(alloc, "encoding"),
        GraphError::NotUtf8(offset) => at_offset(alloc, "not-utf8", *offset),
        GraphError::NoGraph => String::from_str(alloc, "no-graph"),
        GraphError::SecondGraph(offset) => at_offset(alloc, "second-graph", *offset),
        GraphError::Undirected(offset) => at_offset(alloc, "undirected", *offset),
        GraphError::Hyperedge(offset) => at_offset(alloc, "hyperedge", *offset),
        GraphError::Port(offset) => at_offset(alloc, "port", *offset),
        GraphError::DoubleNode(offset) => at_offset(alloc, "double-node", *offset),
        GraphError::UnknownNode(offset) => at_offset(alloc, "unknown-node", *offset),
        GraphError::NoLabel(offset) => at_offset(alloc, "no-label", *offset),
        GraphError::LabelLong(offset) => at_offset(alloc, "label-long", *offset),
        GraphError::TooDeep(offset) => at_offset(alloc, "too-deep", *offset),
        GraphError::TooManyStates => String::from_str(alloc, "too-many-states"),
        GraphError::TooManyMoves => String::from_str(alloc, "too-many-moves"),
        GraphError::Memory => Ok(String::new(alloc)),
    }
}

fn at_offset(alloc: Global, fault: &str, offset: u64) -> Result<String, AllocError>
    ensures { IfOk result (λ text. string_bytes text ≡ offset_text fault.now offset) }
{
    format!(in alloc; "{fault} {offset}")
}

fn list_error(alloc: Global, error: &LinesError) -> Result<String, AllocError>
    ensures { IfOk result (λ text. string_bytes text ≡ list_error_text error.now) }
{
    match error {
        LinesError::Line(line) => at_line(alloc, "line ", *line),
        LinesError::LabelLong(line) => at_line(alloc, "label-long ", *line),
        LinesError::NotUtf8(line) => at_line(alloc, "not-utf8 ", *line),
        LinesError::Memory => Ok(String::new(alloc)),
    }
}

fn aut_error(alloc: Global, error: &AutError) -> Result<String, AllocError>
    ensures { IfOk result (λ text. string_bytes text ≡ aut_error_text error.now) }
{
    match error {
        AutError::Header => String::from_str(alloc, "header"),
        AutError::Line(line) => at_line(alloc, "line ", *line),
        AutError::State(line) => at_line(alloc, "state ", *line),
        AutError::Count { declared, found } => miscounted(alloc, *declared, *found),
        AutError::LabelLong(line) => at_line(alloc, "label-long ", *line),
        AutError::NotUtf8(line) => at_line(alloc, "not-utf8 ", *line),
        AutError::TooManyStates => String::from_str(alloc, "too-many-states"),
        AutError::TooManyMoves => String::from_str(alloc, "too-many-moves"),
        AutError::Memory => Ok(String::new(alloc)),
    }
}

fn cert_error(alloc: Global, error: &CertError) -> Result<String, AllocError>
    ensures { IfOk result (λ text. string_bytes text ≡ cert_error_text error.now) }
{
    match error {
        CertError::Line(line) => at_line(alloc, "line ", *line),
        CertError::Cut(line) => at_line(alloc, "cut ", *line),
        CertError::UnknownLabel(line) => at_line(alloc, "unknown-label ", *line),
        CertError::StateRange(line) => at_line(alloc, "state-range ", *line),
        CertError::Memory => Ok(String::new(alloc)),
    }
}

fn log_error(alloc: Global, error: &LogError) -> Result<String, AllocError>
    ensures { IfOk result (λ text. string_bytes text ≡ log_error_text error.now) }
{
    match error {
        LogError::Version => String::from_str(alloc, "version"),
        LogError::Line(line) => at_line(alloc, "line ", *line),
        LogError::Cut => String::from_str(alloc, "cut"),
        LogError::Memory => Ok(String::new(alloc)),
    }
}

fn at_line(alloc: Global, front: &str, line: u32) -> Result<String, AllocError>
    ensures { IfOk result (λ text. string_bytes text ≡ front.now ++ decimal line) }
{
    format!(in alloc; "{front}{line}")
}

fn miscounted(alloc: Global, declared: u32, found: u32) -> Result<String, AllocError>
    ensures { IfOk result (λ text. string_bytes text ≡ codes "count declared=" ++ (decimal declared ++ (codes " found=" ++ decimal found))) }
{
    let mut text = format!(in alloc; "count declared={declared}")?;
    let rest = format!(in alloc; " found={found}")?;
    text.push_str(rest.as_str())?;
    Ok(text)
}
