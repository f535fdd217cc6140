//! The words of `angelic`.
ghost use Rattle.std.specs.Prelude.{◌≡◌, map, string_bytes};
ghost use Rattle.torx_words.specs.Accepted.{IsAsked, asked};
ghost use Rattle.cmd_angelic.specs.Angelic.{angelic_of, angelic_shape};
ghost use Rattle.cmd_angelic.specs.Named.{request_from};

use lts_base::Divergence;
use std::alloc::Global;
use torx_words::{
    DIVERGENCE, Form, Given, INPUTS, MARKS, NamedOption, Sorting, WordsError, read_words,
};

static OPTIONS: [NamedOption<'static>; 3] = [MARKS, INPUTS, DIVERGENCE];

/// What the words ask for.
#[derive(Clone, Copy, Debug)]
pub(crate) struct Request<'a> {
    /// How labels are sorted.
    pub sorting: Sorting<'a>,
    /// How cycles of internal moves are read.
    pub divergence: Divergence,
    /// The name of the system's file.
    pub file: &'a str,
}

/// What the words after the command ask for.
pub(crate) fn read_request<'a>(
    alloc: Global,
    words: &'a [String],
) -> Result<Request<'a>, WordsError>
    ensures { IsAsked (asked angelic_shape angelic_of (map string_bytes words.entry.now)) request_from result }
{
    let given = read_words(alloc, &Form::plain(&OPTIONS, 1, 1), words)?;
    Ok(request_of(&given))
}

fn request_of<'a>(given: &Given<'a>) -> Request<'a>
    requires { given.now.shape ≡ angelic_shape }
    ensures { request_from result ≡ angelic_of given.now.reading }
{
    Request {
        sorting: given.sorting(),
        divergence: given.divergence(),
        file: given.required_file(0),
    }
}
