//! The program, from its arguments on.
ghost use Rattle.std.specs.Prelude.{◌≡◌};
ghost use Rattle.edge_io.specs.Outside.{KeepsFiles};
ghost use Rattle.sim_serve.specs.Program.{IsRunOn, after_name};
ghost use Rattle.sim_serve.specs.Serve.{scene};

use crate::answer::serve;
use crate::report::{stopped, written};
use crate::status::SimStatus;
use edge_io::{Door, Files, Sink};
use std::alloc::{AllocError, Global};
use std::env::Args;
use std::io;
use tool_base::words_stop;
use torx_words::{UsageKind, WordsError};

/// Runs the program with its arguments, the first of which is its own name.
pub fn program<F: Files, S: Sink, R: Door>(
    alloc: Global,
    arguments: Result<Vec<String>, WordsError>,
    files: &mut F,
    out: &mut S,
    door: &mut R,
) -> SimStatus
where
    R::Stream: Drop,
    ensures run { IsRunOn arguments (F.told files.old) (F.told files.new) (scene (R.told door.old) (R.told door.new) (S.told out.old) (S.told out.new)) result }
    ensures keeps { KeepsFiles (F.told files.old) (F.told files.new) }
{
    match arguments {
        Ok(all) => serve(alloc, words_after_name(&all), files, out, door),
        Err(error) => written(out, stopped(alloc, words_stop(error))),
    }
}

/// The arguments after the program's own name.
fn words_after_name(all: &[String]) -> &[String]
    ensures { result.now ≡ after_name all.now }
{
    match all {
        [_, words @ ..] => words,
        [] => all,
    }
}

/// The arguments, where they could be had.
pub fn arguments(alloc: Global, given: io::Result<Args>) -> Result<Vec<String>, WordsError> {
    match given {
        Ok(all) => match listed(alloc, all) {
            Ok(list) => Ok(list),
            Err(_) => Err(WordsError::Memory),
        },
        Err(error) => Err(words_error(error.kind())),
    }
}

/// Why there are no arguments: want of memory, or one that isn't UTF-8.
fn words_error(kind: io::ErrorKind) -> WordsError {
    match kind {
        io::ErrorKind::OutOfMemory => WordsError::Memory,
        _ => WordsError::Usage(UsageKind::Words),
    }
}

fn listed(alloc: Global, all: Args) -> Result<Vec<String>, AllocError> {
    let mut list = Vec::new(alloc);
    for argument in all {
        list.push(argument)?;
    }
    Ok(list)
}
