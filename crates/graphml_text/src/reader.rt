//! The reader of GraphML files.
ghost use Rattle.std.specs.Prelude.{◌≡◌, ◌⊎◌, ◌<◌, ◌≤◌, ◌+◌, ◌-◌, ◌^◌, None, Some, ℕ, Ok, Err, ◌≢◌, slice_index, [], ◌∷◌, ◌++◌, length, MatchResult, OnOk, IfOk};
ghost use Rattle.graphml_scan.specs.Token.{IsRun, Text, Start};
ghost use Rattle.graphml_text.specs.Element.{step, innermost};
ghost use Rattle.lts_base.specs.Raw.{IsRaw};
ghost use Rattle.graphml_text.specs.Reading.{Reading, nothing_read};
ghost use Rattle.graphml_text.specs.Document as spec;
ghost use Rattle.graphml_text.specs.Drawing.{IsDrawing, IsWritten};
ghost use Rattle.graphml_scan.specs.MarkupValues.{token_of};
ghost use Rattle.graphml_text.specs.MachineValues.{reading_of, Says, Steps};
ghost use Rattle.graphml_text.specs.Kept.{IsKept};
ghost use Rattle.graphml_text.specs.Going.{Goes, Halts, Stops, EndsIn, IsStart};

use crate::ends::finish;
use crate::error::GraphError;
use crate::front::{body_of, text_end, unmarked};
use crate::machine::Machine;
use crate::step::{ended, started, texted, texted_by_part};
use graphml_scan::{
    Attribute, Markup, after_text, end_tag_at, is_white, markup_at, reference_at, run_at,
    start_tag_at,
};
use lts_base::RawLts;
use std::alloc::Global;

/// Reads a GraphML file.
pub fn read_graphml(alloc: Global, bytes: &[u8]) -> Result<RawLts, GraphError>
    ensures read { MatchResult result (spec.IsGraphmlFile bytes.now) (spec.RefusesGraphml bytes.now) }
    ensures only { (r : _) → spec.IsGraphmlFile bytes.now r → MatchResult result (λ q. q ≡ r) (λ e. e ≡ GraphError.Memory) }
    ensures fault { (e : _) → spec.RefusesGraphml bytes.now e → ¬ (e ≡ GraphError.Memory) → MatchResult result (λ _. ⊥) (spec.IsOrMemory e) }
    ensures drawn { (d : _) → IsDrawing d → IsWritten d bytes.now → MatchResult result (λ r. spec.said_of r ≡ d.system) (λ e. e ≡ GraphError.Memory) }
{
    read_content(alloc, bytes)
}

fn read_content(alloc: Global, bytes: &[u8]) -> Result<RawLts, GraphError>
    ensures read { MatchResult result (spec.IsGraphml bytes.now) (spec.RefusesGraphml bytes.now) }
    ensures sound { IfOk result IsRaw }
{
    if let Some(end) = text_end(bytes) {
        return Err(GraphError::NotUtf8(end as u64));
    }
    match body_of(alloc, bytes.len(), unmarked(bytes)) {
        Ok(body) => match read_body(alloc, bytes.len(), body) {
            Ok(raw) => Ok(raw),
            Err(fault) => Err(fault),
        },
        Err(fault) => Err(fault),
    }
}

/// Reads what follows the declaration in a content of this size.
fn read_body(alloc: Global, size: usize, body: &[u8]) -> Result<RawLts, GraphError>
    requires { length body.now ≤ size }
    ensures read { Says result (spec.read_on size nothing_read body.now) }
    ensures sound { IfOk result IsRaw }
{
    match read_tokens(alloc, size, body) {
        Ok(machine) => match finish(size, machine) {
            Ok(raw) => Ok(raw),
            Err(fault) => Err(fault),
        },
        Err(fault) => Err(fault),
    }
}

/// Reads what a reference or a CDATA section stands for.
fn text_read(at: u64, machine: &mut Machine, text: &[u8]) -> Result<(), GraphError>
    ensures { Steps (reading_of machine.new) result (step at (reading_of machine.old) (Text text.now)) }
{
    if machine.stack.as_slice().is_empty() {
        return Err(GraphError::Malformed(at));
    }
    texted(machine.alloc, &mut machine.stack, text)?;
    Ok(())
}

/// Reads markup.
fn markup_read<'a>(
    at: u64,
    machine: &mut Machine<'a>,
    markup: &Markup<'a, '_>,
) -> Result<(), GraphError>
    ensures { Steps (reading_of machine.new) result (step at (reading_of machine.old) (token_of markup.now)) }
{
    match markup {
        Markup::Section(text) => text_read(at, machine, text),
        Markup::Start(tag) => started(at, machine, tag),
        Markup::End(name) => ended(at, machine, name),
        Markup::Passed => Ok(()),
    }
}

/// Reads text outside the root, which may only be white.
fn outside_read(at: u64, run: &[u8]) -> Result<(), GraphError>
    requires { at + length run.now < 2 ^ 64 }
    ensures { (m : Reading) → innermost m ≡ None → Steps m result (spec.run_read at m run.now) }
{
    let mut place = at;
    for byte in run {
        if !is_white(*byte) {
            return Err(GraphError::Malformed(place));
        }
        place += 1;
    }
    Ok(())
}

/// Reads text that stands for itself.
fn run_read<'a>(at: u64, machine: &mut Machine<'a>, run: &'a [u8]) -> Result<(), GraphError>
    requires { at + length run.now < 2 ^ 64 }
    ensures { Steps (reading_of machine.new) result (spec.run_read at (reading_of machine.old) run.now) }
{
    if machine.stack.as_slice().is_empty() {
        return outside_read(at, run);
    }
    texted_by_part(machine.alloc, &mut machine.stack, run)?;
    Ok(())
}

/// Reads the markup at the front, and gives the bytes after it; so many bytes are left in all.
fn read_markup<'a>(
    alloc: Global,
    size: usize,
    room: &mut Vec<Attribute<'a>>,
    machine: &mut Machine<'a>,
    bytes: &'a [u8],
) -> Result<&'a [u8], GraphError>
    requires left { length bytes.now ≤ size }
    requires some { 0 < length bytes.now }
    requires front { slice_index bytes.now 0 ≡ 60 }
    ensures { MatchResult result (λ rest. Goes size machine.old bytes.now machine.new rest.now) (Halts size machine.old bytes.now) }
{
    // most markup is a tag, which is read without a markup in between
    if bytes.len() == 1 || bytes[1] == b'!' || bytes[1] == b'?' {
        return read_mark(alloc, size, room, machine, bytes);
    }
    if bytes[1] == b'/' {
        return read_end(size, machine, bytes);
    }
    read_start(alloc, size, room, machine, bytes)
}

/// Reads the start tag at the front.
fn read_start<'a>(
    alloc: Global,
    size: usize,
    room: &mut Vec<Attribute<'a>>,
    machine: &mut Machine<'a>,
    bytes: &'a [u8],
) -> Result<&'a [u8], GraphError>
    requires left { length bytes.now ≤ size }
    requires some { 1 < length bytes.now }
    requires front { slice_index bytes.now 0 ≡ 60 }
    requires start { IsStart (slice_index bytes.now 1) }
    ensures { MatchResult result (λ rest. Goes size machine.old bytes.now machine.new rest.now) (Halts size machine.old bytes.now) }
{
    let at = (size - bytes.len()) as u64;
    let Some((tag, rest)) = start_tag_at(alloc, room, &bytes[1..])? else {
        return Err(refusal(at, bytes));
    };
    match started(at, machine, &tag) {
        Ok(()) => Ok(rest),
        Err(fault) => Err(fault),
    }
}

/// Reads the end tag at the front.
fn read_end<'a>(
    size: usize,
    machine: &mut Machine<'a>,
    bytes: &'a [u8],
) -> Result<&'a [u8], GraphError>
    requires left { length bytes.now ≤ size }
    requires some { 1 < length bytes.now }
    requires front { slice_index bytes.now 0 ≡ 60 }
    requires slash { slice_index bytes.now 1 ≡ 47 }
    ensures { MatchResult result (λ rest. Goes size machine.old bytes.now machine.new rest.now) (Halts size machine.old bytes.now) }
{
    let at = (size - bytes.len()) as u64;
    let Some((name, rest)) = end_tag_at(&bytes[2..]) else {
        return Err(refusal(at, bytes));
    };
    match ended(at, machine, name) {
        Ok(()) => Ok(rest),
        Err(fault) => Err(fault),
    }
}

/// Reads markup of any kind at the front.
#[inline(never)]
fn read_mark<'a>(
    alloc: Global,
    size: usize,
    room: &mut Vec<Attribute<'a>>,
    machine: &mut Machine<'a>,
    bytes: &'a [u8],
) -> Result<&'a [u8], GraphError>
    requires left { length bytes.now ≤ size }
    requires some { 0 < length bytes.now }
    requires front { slice_index bytes.now 0 ≡ 60 }
    ensures { MatchResult result (λ rest. Goes size machine.old bytes.now machine.new rest.now) (Halts size machine.old bytes.now) }
{
    let at = (size - bytes.len()) as u64;
    let Some((markup, rest)) = markup_at(alloc, room, &bytes[1..])? else {
        return Err(refusal(at, bytes));
    };
    match markup_read(at, machine, &markup) {
        Ok(()) => Ok(rest),
        Err(fault) => Err(fault),
    }
}

/// Reads the reference at the front, and gives the bytes after it.
fn read_reference<'a>(
    size: usize,
    machine: &mut Machine<'a>,
    bytes: &'a [u8],
) -> Result<&'a [u8], GraphError>
    requires left { length bytes.now ≤ size }
    requires some { 0 < length bytes.now }
    requires front { slice_index bytes.now 0 ≡ 38 }
    ensures { MatchResult result (λ rest. Goes size machine.old bytes.now machine.new rest.now) (Halts size machine.old bytes.now) }
{
    let at = (size - bytes.len()) as u64;
    let Some((character, rest)) = reference_at(&bytes[1..]) else {
        return Err(refusal(at, bytes));
    };
    let mut buffer = [0; 4];
    let text = character.encode_utf8(&mut buffer);
    match text_read(at, machine, text.as_bytes()) {
        Ok(()) => Ok(rest),
        Err(fault) => Err(fault),
    }
}

/// Reads the text at the front that stands for itself, and gives the bytes after it.
fn read_run<'a>(
    size: usize,
    machine: &mut Machine<'a>,
    bytes: &'a [u8],
) -> Result<&'a [u8], GraphError>
    requires left { length bytes.now ≤ size }
    requires some { 0 < length bytes.now }
    requires no_markup { slice_index bytes.now 0 ≢ 60 }
    requires no_reference { slice_index bytes.now 0 ≢ 38 }
    ensures { MatchResult result (λ rest. Goes size machine.old bytes.now machine.new rest.now) (Halts size machine.old bytes.now) }
{
    let at = (size - bytes.len()) as u64;
    let (run, rest) = run_at(bytes);
    match run_read(at, machine, run) {
        Ok(()) => Ok(rest),
        Err(fault) => Err(fault),
    }
}

/// Reads what stands at the front, and gives the bytes after it.
fn read_token<'a>(
    alloc: Global,
    size: usize,
    room: &mut Vec<Attribute<'a>>,
    machine: &mut Machine<'a>,
    bytes: &'a [u8],
) -> Result<&'a [u8], GraphError>
    requires left { length bytes.now ≤ size }
    requires some { 0 < length bytes.now }
    ensures { MatchResult result (λ rest. Goes size machine.old bytes.now machine.new rest.now) (Halts size machine.old bytes.now) }
{
    if bytes[0] == b'<' {
        return read_markup(alloc, size, room, machine, bytes);
    }
    if bytes[0] == b'&' {
        return read_reference(size, machine, bytes);
    }
    read_run(size, machine, bytes)
}

/// Reads the tokens of the body, which ends the content.
fn read_tokens<'a>(alloc: Global, size: usize, body: &'a [u8]) -> Result<Machine<'a>, GraphError>
    requires { length body.now ≤ size }
    ensures { MatchResult result (λ m. EndsIn size body.now (reading_of m)) (Stops size nothing_read body.now) }
{
    let mut machine = Machine::new(alloc, body);
    let mut room = Vec::new(alloc);
    let mut rest = body;
    while !rest.is_empty() {
        match read_token(alloc, size, &mut room, &mut machine, rest) {
            Ok(after) => {
                rest = after;
            }
            Err(fault) => return Err(fault),
        }
    }
    Ok(machine)
}

/// Why bytes begin no token.
fn refusal(at: u64, bytes: &[u8]) -> GraphError
    ensures { (size : ℕ) (m : Reading) → at ≡ size - length bytes.now → 0 < length bytes.now → spec.stopped size bytes.now m ≡ Err result }
{
    match after_text(b"<!DOCTYPE", bytes) {
        Some(_) => GraphError::Doctype(at),
        None => GraphError::Malformed(at),
    }
}
