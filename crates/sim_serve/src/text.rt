//! What the simulated implementation prints of its sessions.
ghost use Rattle.std.specs.Prelude.{◌≡◌, IfOk};
ghost use Rattle.sim_serve.specs.Told.{end_text, listening_text, session_line as line_of_session};

use lts_base::{Listed, Text};
use sim_core::{Served, ServedEnd};
use std::alloc::{AllocError, Global};
use tool_base::put_number;
use trace_text::put_line;

/// That testers can come in.
pub(crate) fn listening_line() -> &'static [u8]
    ensures { result.now ≡ listening_text }
{
    b"listening\n"
}

/// The line of the session of this number, counted from 1.
pub(crate) fn session_line(alloc: Global, number: u32, served: &Served) -> Result<Text, AllocError>
    ensures { IfOk result (λ text. text ≡ line_of_session number served.now) }
{
    let mut text = Vec::from_slice(alloc, b"session ")?;
    put_number(alloc, &mut text, u64::from(number))?;
    text.extend_from_slice(b" inputs=")?;
    put_number(alloc, &mut text, u64::from(served.inputs))?;
    text.extend_from_slice(b" outputs=")?;
    put_number(alloc, &mut text, u64::from(served.outputs))?;
    put_line(&mut text, b" ", end_word(served.end))?;
    Ok(Listed::from_vec(text))
}

/// How a session ended, as a word.
fn end_word(end: ServedEnd) -> &'static [u8]
    ensures { result.now ≡ end_text end }
{
    match end {
        ServedEnd::End => b"end",
        ServedEnd::BadInput => b"bad-input",
        ServedEnd::Long => b"long",
        ServedEnd::Fault => b"fault",
        ServedEnd::Spent => b"spent",
    }
}
