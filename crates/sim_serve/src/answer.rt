//! The top call: from the words and the file to the sessions that are served.
ghost use Rattle.std.specs.Prelude.{map, string_bytes};
ghost use Rattle.edge_io.specs.Outside.{KeepsFiles};
ghost use Rattle.sim_serve.specs.Asked.{request_from};
ghost use Rattle.sim_serve.specs.Exact.{IsAnswered};
ghost use Rattle.sim_serve.specs.Sessions.{IsLeft};
ghost use Rattle.sim_serve.specs.Serve.{IsServed, IsServedFor, scene};

use crate::loading::load;
use crate::report::{refused_words, written};
use crate::serving::serve_all;
use crate::status::SimStatus;
use crate::words::{Request, read_request};
use edge_io::{Door, Files, Sink};
use std::alloc::Global;
use torx_words::UsageKind;

/// Serves the sessions that the words ask for, to testers whose streams come in at this door, and
/// prints a line for each. `words` are the four after the program's name. It waits for testers
/// without end.
pub fn serve<F: Files, S: Sink, R: Door>(
    alloc: Global,
    words: &[String],
    files: &mut F,
    out: &mut S,
    door: &mut R,
) -> SimStatus
where
    R::Stream: Drop,
    ensures served { IsServed (map string_bytes words.now) (F.told files.old) (F.told files.new) (scene (R.told door.old) (R.told door.new) (S.told out.old) (S.told out.new)) result }
    ensures answered { IsAnswered (F.told files.old).content (map string_bytes words.now) result }
    ensures left { IsLeft (map string_bytes words.now) (R.told door.old) (R.told door.new) }
    ensures keeps { KeepsFiles (F.told files.old) (F.told files.new) }
{
    match read_request(words) {
        Some(request) => serve_request(alloc, &request, files, out, door),
        None => written(out, refused_words(alloc, UsageKind::Words)),
    }
}

/// Serves what is asked for.
fn serve_request<F: Files, S: Sink, R: Door>(
    alloc: Global,
    request: &Request<'_>,
    files: &mut F,
    out: &mut S,
    door: &mut R,
) -> SimStatus
where
    R::Stream: Drop,
    ensures served { IsServedFor (request_from request.now) (F.told files.old) (F.told files.new) (scene (R.told door.old) (R.told door.new) (S.told out.old) (S.told out.new)) result }
    ensures keeps { KeepsFiles (F.told files.old) (F.told files.new) }
{
    match load(alloc, files, request.imp) {
        Ok(imp) => serve_all(alloc, request, &imp, out, door),
        Err(report) => written(out, report),
    }
}
