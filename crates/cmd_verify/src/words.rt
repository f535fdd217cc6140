//! The words after `verify`.
ghost use Rattle.std.specs.Prelude.{◌≡◌, map, string_bytes};
ghost use Rattle.torx_words.specs.Accepted.{IsAsked, asked};
ghost use Rattle.cmd_verify.specs.Asked.{request_from, verify_of, verify_shape};

use lts_base::Divergence;
use std::alloc::Global;
use torx_words::{
    DIVERGENCE, Form, Given, INPUTS, MARKS, NamedOption, Sorting, WordsError, read_words,
};

/// The options of `verify`.
static OPTIONS: [NamedOption<'static>; 3] = [MARKS, INPUTS, DIVERGENCE];

/// What the words ask for.
#[derive(Clone, Copy, Debug)]
pub(crate) struct Request<'a> {
    /// How labels are sorted.
    pub sorting: Sorting<'a>,
    /// How cycles of internal moves are read.
    pub divergence: Divergence,
    /// The name of the specification's file.
    pub spec: &'a str,
    /// The name of the implementation's file.
    pub imp: &'a str,
    /// The name of the certificate's file.
    pub cert: &'a str,
}

/// What the words after the command ask for.
pub(crate) fn read_request<'a>(
    alloc: Global,
    words: &'a [String],
) -> Result<Request<'a>, WordsError>
    ensures { IsAsked (asked verify_shape verify_of (map string_bytes words.entry.now)) request_from result }
{
    let given = read_words(alloc, &Form::plain(&OPTIONS, 3, 3), words)?;
    Ok(request_of(&given))
}

fn request_of<'a>(given: &Given<'a>) -> Request<'a>
    requires { given.now.shape ≡ verify_shape }
    ensures { request_from result ≡ verify_of given.now.reading }
{
    Request {
        sorting: given.sorting(),
        divergence: given.divergence(),
        spec: given.required_file(0),
        imp: given.required_file(1),
        cert: given.required_file(2),
    }
}
