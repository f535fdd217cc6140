//! The program, from its arguments on.
ghost use Rattle.std.specs.Prelude.{◌≡◌};
ghost use Rattle.edge_io.specs.Outside.{KeepsFiles};
ghost use Rattle.cmd_drive.specs.Dialled.{dialled};
ghost use Rattle.torx_tool.specs.Program.{IsRunOn, after_name};

use crate::answer::{no_memory, refused_words};
use crate::run::{run, written};
use crate::status::Status;
use edge_io::{Dialer, Files, Sink};
use std::alloc::{AllocError, Global};
use std::env::Args;
use std::io;
use torx_words::{UsageKind, WordsError};

/// Runs the program with its arguments, the first of which is its own name.
pub fn program<F: Files, S: Sink, D: Dialer>(
    alloc: Global,
    arguments: Result<Vec<String>, WordsError>,
    files: &mut F,
    out: &mut S,
    dialer: &mut D,
) -> Status
    ensures run { IsRunOn (dialled D.Link.gives (D.told dialer.old) (D.told dialer.new)) arguments (F.told files.old) (F.told files.new) (S.told out.old) (S.told out.new) result }
    ensures keeps { KeepsFiles (F.told files.old) (F.told files.new) }
{
    match arguments {
        Ok(all) => run(alloc, words_after_name(&all), files, out, dialer),
        Err(WordsError::Usage(kind)) => written(out, refused_words(alloc, kind)),
        Err(WordsError::Memory) => written(out, no_memory(alloc)),
    }
}

/// The arguments after the program's own name.
fn words_after_name(all: &[String]) -> &[String]
    ensures { result.now ≡ after_name all.now }
{
    match all {
        [_, words @ ..] => words,
        [] => all,
    }
}

/// The arguments, where they could be had.
pub fn arguments(alloc: Global, given: io::Result<Args>) -> Result<Vec<String>, WordsError> {
    match given {
        Ok(all) => match listed(alloc, all) {
            Ok(list) => Ok(list),
            Err(_) => Err(WordsError::Memory),
        },
        Err(error) => Err(words_error(error.kind())),
    }
}

/// Why there are no arguments: want of memory, or one that isn't UTF-8.
fn words_error(kind: io::ErrorKind) -> WordsError {
    match kind {
        io::ErrorKind::OutOfMemory => WordsError::Memory,
        _ => WordsError::Usage(UsageKind::Words),
    }
}

fn listed(alloc: Global, all: Args) -> Result<Vec<String>, AllocError> {
    let mut list = Vec::new(alloc);
    for argument in all {
        list.push(argument)?;
    }
    Ok(list)
}
