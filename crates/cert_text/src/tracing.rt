//! Lines of a trace.
ghost use Rattle.std.specs.Prelude.{◌≡◌, ℕ, ◌++◌, codes};
ghost use Rattle.cert_text.specs.Adding.{Reads};

use crate::cert::{Cert, CertBody};
use crate::error::CertError;
use crate::pairing::is_end;
use crate::piece::after_word;
use crate::stage::Stage;
use lts_base::{Item, Labels, Mode, Trace};
use trace_text::{item_named, shown_named};

/// What line `number` adds to a trace.
pub fn read_tracing(
    mode: Mode,
    trace: Trace,
    line: &[u8],
    labels: &Labels,
    number: u32,
) -> Result<Stage, CertError>
    ensures { (imp spec : ℕ) → Reads labels.now imp spec (Stage.Tracing mode trace) line.now number result }
{
    if let Some(text) = after_word(line, b"after ") {
        return add_item(mode, trace, text, labels, number);
    }
    if let Some(text) = after_word(line, b"shows ") {
        return add_shown(mode, trace, text, labels, number);
    }
    Err(CertError::Line(number))
}

fn add_item(
    mode: Mode,
    trace: Trace,
    text: &[u8],
    labels: &Labels,
    number: u32,
) -> Result<Stage, CertError>
    ensures { (imp spec : ℕ) → Reads labels.now imp spec (Stage.Tracing mode trace) (codes "after " ++ text.now) number result }
{
    let Some(item) = item_named(labels, text) else {
        return Err(CertError::UnknownLabel(number));
    };
    let mut longer = trace;
    longer.push(item)?;
    Ok(Stage::Tracing(mode, longer))
}

fn add_shown(
    mode: Mode,
    trace: Trace,
    text: &[u8],
    labels: &Labels,
    number: u32,
) -> Result<Stage, CertError>
    ensures { (imp spec : ℕ) → Reads labels.now imp spec (Stage.Tracing mode trace) (codes "shows " ++ text.now) number result }
{
    match shown_named(labels, text) {
        Some(shown) => Ok(Stage::Showing(mode, trace, shown)),
        None => Err(CertError::UnknownLabel(number)),
    }
}

/// What line `number` adds to a trace and the item that is shown after it.
pub fn read_showing(
    mode: Mode,
    trace: Trace,
    shown: Item,
    line: &[u8],
    number: u32,
) -> Result<Stage, CertError>
    ensures { (a : _) (imp spec : ℕ) → Reads a imp spec (Stage.Showing mode trace shown) line.now number result }
{
    let Some(text) = after_word(line, b"end") else {
        return Err(CertError::Line(number));
    };
    if !is_end(text, trace.as_slice().len()) {
        return Err(CertError::Line(number));
    }
    Ok(Stage::Ended(Cert {
        mode,
        body: CertBody::Shown { trace, shown },
    }))
}
