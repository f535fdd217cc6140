//! One session over a stream that came in.
ghost use Rattle.std.specs.Prelude.{◌≡◌};
ghost use Rattle.edge_io.specs.Doors.{IsNewStream};
ghost use Rattle.line_link.specs.Hearing.{new_over};
ghost use Rattle.sim_serve.specs.Loaded.{CanServe};
ghost use Rattle.sim_serve.specs.Turn.{IsOver};

use crate::limits::MOST_TURNS;
use edge_io::Door;
use line_link::{LineLink, LinkRefused};
use lts_base::Memory;
use rand_core::SeedableRng;
use rand_pcg::Lcg64Xsh32;
use sim_core::{Served, serve_session};
use std::alloc::Global;
use tool_base::OneSystem;

/// Serves the session by the generator of this number, and closes the stream on each way out.
pub(crate) fn serve_stream<R: Door>(
    alloc: Global,
    imp: &OneSystem,
    number: u64,
    door: &mut R,
    stream: R::Stream,
) -> Result<Served, Memory>
where
    R::Stream: Drop,
    requires able { CanServe imp.now }
    requires new { IsNewStream (R.Stream.told stream) }
    ensures over { IsOver imp.now.labels imp.now.system number (R.told door.old) (R.told door.new) result }
{
    match LineLink::new(alloc, stream) {
        Ok(link) => serve_link(alloc, imp, number, door, link),
        Err(LinkRefused { stream }) => {
            door.close(stream);
            Err(Memory)
        }
    }
}

/// The same over a link that is new.
fn serve_link<R: Door>(
    alloc: Global,
    imp: &OneSystem,
    number: u64,
    door: &mut R,
    link: LineLink<R::Stream>,
) -> Result<Served, Memory>
where
    R::Stream: Drop,
    requires able { CanServe imp.now }
    requires link { link ≡ new_over link.stream }
    requires new { IsNewStream (R.Stream.told link.stream) }
    ensures over { IsOver imp.now.labels imp.now.system number (R.told door.old) (R.told door.new) result }
{
    let mut link = link;
    let rng = Lcg64Xsh32::seed_from_u64(number);
    let result = serve_session(alloc, &imp.system, &imp.labels, &mut link, rng, MOST_TURNS);
    door.close(link.into_stream());
    result
}
