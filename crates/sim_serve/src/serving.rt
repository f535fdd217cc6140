//! Streams that come in one after the other: a session over each, and its line.
ghost use Rattle.std.specs.Prelude.{◌≡◌, true};
ghost use Rattle.edge_io.specs.Doors.{IsNewStream};
ghost use Rattle.sim_serve.specs.Asked.{request_from};
ghost use Rattle.sim_serve.specs.Loaded.{CanServe};
ghost use Rattle.sim_serve.specs.Serve.{IsOpened, scene};
ghost use Rattle.sim_serve.specs.Turn.{ClosesOne, IsNext, IsTold, IsTurn, halt_status};

use crate::limits::TICK;
use crate::session::serve_stream;
use crate::status::SimStatus;
use crate::text::{listening_line, session_line};
use crate::words::Request;
use edge_io::{Door, Failed, Sink, put_all};
use sim_core::Served;
use std::alloc::Global;
use tool_base::OneSystem;

/// Why no further session is served.
#[derive(Clone, Copy, Debug)]
pub(crate) enum Halt {
    /// The door let nobody in.
    Door,
    /// The output failed.
    Out,
    /// Memory ran out.
    Memory,
}

/// Which session is served.
#[derive(Clone, Copy, Debug)]
pub(crate) struct Turn {
    /// The number of its generator.
    pub(crate) number: u64,
    /// Its place, counted from 1.
    pub(crate) place: u32,
}

/// Listens at the address, and serves the sessions that are asked for.
pub(crate) fn serve_all<S: Sink, R: Door>(
    alloc: Global,
    request: &Request<'_>,
    imp: &OneSystem,
    out: &mut S,
    door: &mut R,
) -> SimStatus
where
    R::Stream: Drop,
    requires able { CanServe imp.now }
    ensures { IsOpened (request_from request.now) imp.now.labels imp.now.system (scene (R.told door.old) (R.told door.new) (S.told out.old) (S.told out.new)) result }
{
    match door.bind(request.address) {
        Ok(()) => {}
        Err(Failed) => return SimStatus::DoorFault,
    }
    match put_all(out, listening_line()) {
        Ok(()) => {}
        Err(Failed) => return SimStatus::OutFault,
    }
    'sessions: for place in 0..request.sessions {
        let turn = Turn {
            number: request.number.wrapping_add(u64::from(place)),
            place: place + 1,
        };
        if let Some(halt) = serve_next(alloc, imp, turn, out, door) {
            return status_of(halt);
        }
    }
    SimStatus::Served
}

/// The answer where no further session is served.
fn status_of(halt: Halt) -> SimStatus
    ensures { result ≡ halt_status halt }
{
    match halt {
        Halt::Door => SimStatus::DoorFault,
        Halt::Out => SimStatus::OutFault,
        Halt::Memory => SimStatus::Memory,
    }
}

/// Waits for a stream, and serves the session over it; None where there may be a further one.
fn serve_next<S: Sink, R: Door>(
    alloc: Global,
    imp: &OneSystem,
    turn: Turn,
    out: &mut S,
    door: &mut R,
) -> Option<Halt>
where
    R::Stream: Drop,
    requires able { CanServe imp.now }
    requires listens { (R.told door.old).listens ≡ true }
    ensures next { IsNext imp.now.labels imp.now.system turn.number turn.place (R.told door.old) (R.told door.new) (S.told out.old) (S.told out.new) result }
{
    match door.accept(TICK) {
        Ok(stream) => serve_and_tell(alloc, imp, turn, out, door, stream),
        Err(Failed) => Some(Halt::Door),
    }
}

/// Serves the session over the stream, and tells of it.
fn serve_and_tell<S: Sink, R: Door>(
    alloc: Global,
    imp: &OneSystem,
    turn: Turn,
    out: &mut S,
    door: &mut R,
    stream: R::Stream,
) -> Option<Halt>
where
    R::Stream: Drop,
    requires able { CanServe imp.now }
    requires new { IsNewStream (R.Stream.told stream) }
    ensures turn { IsTurn imp.now.labels imp.now.system turn.number turn.place (ClosesOne (R.told door.old) (R.told door.new)) (S.told out.old) (S.told out.new) result }
{
    match serve_stream(alloc, imp, turn.number, door, stream) {
        Ok(served) => tell(alloc, out, turn.place, &served),
        Err(_) => Some(Halt::Memory),
    }
}

/// Writes the line of a session.
fn tell<S: Sink>(alloc: Global, out: &mut S, place: u32, served: &Served) -> Option<Halt>
    ensures { IsTold place served.now (S.told out.old) (S.told out.new) result }
{
    match session_line(alloc, place, served) {
        Ok(text) => match put_all(out, text.as_slice()) {
            Ok(()) => None,
            Err(Failed) => Some(Halt::Out),
        },
        Err(_) => Some(Halt::Memory),
    }
}
