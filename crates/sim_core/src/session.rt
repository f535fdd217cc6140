//! Sessions that a simulated implementation serves to a tester whose lines come over a stream.
ghost use Rattle.std.specs.Prelude.{◌≡◌, IfOk, OnErr};
ghost use Rattle.lts_base.specs.Alphabet.{IsOver};
ghost use Rattle.lts_base.specs.Shape.{IsInputEnabled, IsConvergentOrQuiet};
ghost use Rattle.edge_io.specs.Links.{KeepsLink, LinkFails};
ghost use Rattle.line_link.specs.Hearing.{pending_over, told_over};
ghost use Rattle.sim_core.specs.Served.{IsFault};
ghost use Rattle.sim_core.specs.Session.{IsSessionServed};

use crate::serving::{Served, serve_over};
use crate::sim_link::SimLink;
use edge_io::Stream;
use line_link::LineLink;
use lts_base::{Labels, Lts, Memory};
use rand_core::utils::NextWord;
use std::alloc::Global;

/// Serves a session of at most so many turns: a simulation of the system by the generator takes the
/// lines that are inputs and writes the outputs that it shows.
pub fn serve_session<S: Stream + Drop, R: NextWord<u32> + Drop>(
    alloc: Global,
    lts: &Lts,
    labels: &Labels,
    link: &mut LineLink<S>,
    rng: R,
    most: u32,
) -> Result<Served, Memory>
    requires over { IsOver labels.now lts.now }
    requires enabled { IsInputEnabled lts.now }
    requires sound { IsConvergentOrQuiet lts.now }
    ensures served { IfOk result (λ served. IsSessionServed R.step most lts.now labels.now rng (pending_over S.told link.old) served (pending_over S.told link.new)) }
    ensures fault { IfOk result (λ served. IsFault served.end → LinkFails (told_over S.told link.old) (told_over S.told link.new)) }
    ensures same { OnErr result (link.new ≡ link.old) }
    ensures later { KeepsLink (told_over S.told link.old) (told_over S.told link.new) }
{
    let mut sim = SimLink::new(alloc, lts, labels, rng)?;
    Ok(serve_over(&mut sim, link, most))
}
