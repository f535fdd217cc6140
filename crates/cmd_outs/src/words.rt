//! The words after `outs`.
ghost use Rattle.std.specs.Prelude.{◌≡◌, map, string_bytes};
ghost use Rattle.torx_words.specs.Accepted.{IsAsked, asked};
ghost use Rattle.cmd_outs.specs.Asked.{outs_of, outs_shape, request_from};

use lts_base::{Divergence, Mode};
use std::alloc::Global;
use torx_words::{
    DIVERGENCE, Form, Given, INPUTS, MARKS, NamedOption, Sorting, UIOCO, WordsError, read_words,
};

/// The options of `outs`.
static OPTIONS: [NamedOption<'static>; 4] = [MARKS, INPUTS, DIVERGENCE, UIOCO];

/// What the words ask for.
#[derive(Clone, Copy, Debug)]
pub(crate) struct Request<'a> {
    /// How labels are sorted.
    pub sorting: Sorting<'a>,
    /// How cycles of internal moves are read.
    pub divergence: Divergence,
    /// The conformance relation that says which traces and inputs are allowed.
    pub mode: Mode,
    /// The name of the system's file.
    pub spec: &'a str,
    /// The name of the trace's file; without it the trace is empty.
    pub trace: Option<&'a str>,
}

/// What the words after the command ask for.
pub(crate) fn read_request<'a>(
    alloc: Global,
    words: &'a [String],
) -> Result<Request<'a>, WordsError>
    ensures { IsAsked (asked outs_shape outs_of (map string_bytes words.entry.now)) request_from result }
{
    let given = read_words(alloc, &Form::plain(&OPTIONS, 1, 2), words)?;
    Ok(request_of(&given))
}

fn request_of<'a>(given: &Given<'a>) -> Request<'a>
    requires { given.now.shape ≡ outs_shape }
    ensures { request_from result ≡ outs_of given.now.reading }
{
    Request {
        sorting: given.sorting(),
        divergence: given.divergence(),
        mode: given.mode(),
        spec: given.required_file(0),
        trace: given.file(1),
    }
}
