//! The words after `replay` and after `migrate`.
ghost use Rattle.std.specs.Prelude.{◌≡◌, map, string_bytes};
ghost use Rattle.torx_words.specs.Accepted.{IsAsked, asked};
ghost use Rattle.cmd_replay.specs.Asked.{replay_of, replay_shape, request_from};

use lts_base::Divergence;
use std::alloc::Global;
use torx_words::{
    DIVERGENCE, Form, Given, INPUTS, MARKS, NamedOption, Sorting, WordsError, read_words,
};

/// The options of both commands.
static OPTIONS: [NamedOption<'static>; 3] = [MARKS, INPUTS, DIVERGENCE];

/// What the words ask for.
#[derive(Clone, Copy, Debug)]
pub struct Request<'a> {
    /// How labels are sorted.
    pub sorting: Sorting<'a>,
    /// How cycles of internal moves are read.
    pub divergence: Divergence,
    /// The name of the specification's file.
    pub spec: &'a str,
    /// The name of the file of logs.
    pub logs: &'a str,
}

/// What the words after the command ask for.
pub fn read_request<'a>(alloc: Global, words: &'a [String]) -> Result<Request<'a>, WordsError>
    ensures { IsAsked (asked replay_shape replay_of (map string_bytes words.entry.now)) request_from result }
{
    let given = read_words(alloc, &Form::plain(&OPTIONS, 2, 2), words)?;
    Ok(request_of(&given))
}

fn request_of<'a>(given: &Given<'a>) -> Request<'a>
    requires { given.now.shape ≡ replay_shape }
    ensures { request_from result ≡ replay_of given.now.reading }
{
    Request {
        sorting: given.sorting(),
        divergence: given.divergence(),
        spec: given.required_file(0),
        logs: given.required_file(1),
    }
}
