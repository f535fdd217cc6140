//! Sessions that a simulated implementation serves over a link to a tester.
ghost use Rattle.std.specs.Prelude.{◌≡◌};
ghost use Rattle.edge_io.specs.Links.{KeepsLink, LinkFails};
ghost use Rattle.sim_core.specs.Served.{IsTurn, IsServed, IsTaken, IsGiven, IsFault, IsFaultTurn, serving};

use crate::sim_link::SimLink;
use edge_io::{Failed, Heard, Link};
use rand_core::utils::NextWord;

/// How a served session ended.
#[derive(Clone, Copy, PartialEq, Eq, Debug)]
pub enum ServedEnd {
    /// The tester's side ended.
    End,
    /// A line came that is no input.
    BadInput,
    /// A line came that is too long.
    Long,
    /// A call of the link failed.
    Fault,
    /// There were as many turns as there may be.
    Spent,
}

/// What was served: how many lines were taken and written, and how it ended.
#[derive(Clone, Copy, PartialEq, Eq, Debug)]
pub struct Served {
    /// The lines that were taken.
    pub inputs: u32,
    /// The lines that were written.
    pub outputs: u32,
    /// The end.
    pub end: ServedEnd,
}

/// What a turn of a served session did.
#[derive(Clone, Copy, Debug)]
pub enum ServedTurn {
    /// A line was taken.
    Took,
    /// A line was written.
    Gave,
    /// Nothing came, and nothing was shown.
    Waited,
    /// The session ended.
    Ended(ServedEnd),
}

/// Serves a session over the link, of at most so many turns: each is one hearing of the link. A line
/// that is an input is taken, and where nothing came the simulation may show an output, which is
/// written.
pub fn serve_over<K: Link, R: NextWord<u32>>(
    sim: &mut SimLink<'_, R>,
    link: &mut K,
    most: u32,
) -> Served
    ensures served { IsServed K.gives R.step most (serving sim.old (K.state link.old)) result (serving sim.new (K.state link.new)) }
    ensures fault { IsFault result.end → LinkFails (K.told link.old) (K.told link.new) }
    ensures later { KeepsLink (K.told link.old) (K.told link.new) }
{
    let mut inputs = 0;
    let mut outputs = 0;
    for _ in 0..most {
        match serve_turn(sim, link) {
            ServedTurn::Took => inputs += 1,
            ServedTurn::Gave => outputs += 1,
            ServedTurn::Waited => {}
            ServedTurn::Ended(end) => {
                return Served {
                    inputs,
                    outputs,
                    end,
                };
            }
        }
    }
    Served {
        inputs,
        outputs,
        end: ServedEnd::Spent,
    }
}

/// One turn.
fn serve_turn<K: Link, R: NextWord<u32>>(sim: &mut SimLink<'_, R>, link: &mut K) -> ServedTurn
    ensures turn { IsTurn K.gives R.step (serving sim.old (K.state link.old)) result (serving sim.new (K.state link.new)) }
    ensures fault { IsFaultTurn result → LinkFails (K.told link.old) (K.told link.new) }
    ensures later { KeepsLink (K.told link.old) (K.told link.new) }
{
    match link.hear() {
        Ok(Heard::Line) => take_line(sim, link.text()),
        Ok(Heard::Idle) => give_line(sim, link),
        Ok(Heard::IdleMid) => give_line(sim, link),
        Ok(Heard::TooLong) => ServedTurn::Ended(ServedEnd::Long),
        Ok(Heard::End) => ServedTurn::Ended(ServedEnd::End),
        Err(Failed) => ServedTurn::Ended(ServedEnd::Fault),
    }
}

/// Takes a line, where it is an input.
fn take_line<R: NextWord<u32>>(sim: &mut SimLink<'_, R>, line: &[u8]) -> ServedTurn
    ensures { IsTaken R.step sim.old.simulated line.now result sim.new.simulated }
{
    match sim.send(line) {
        Ok(()) => ServedTurn::Took,
        Err(Failed) => ServedTurn::Ended(ServedEnd::BadInput),
    }
}

/// Writes the line of an output, where the simulation shows one.
fn give_line<K: Link, R: NextWord<u32>>(sim: &mut SimLink<'_, R>, link: &mut K) -> ServedTurn
    ensures given { IsGiven K.gives R.step (serving sim.old (K.state link.old)) result (serving sim.new (K.state link.new)) }
    ensures fault { IsFaultTurn result → LinkFails (K.told link.old) (K.told link.new) }
    ensures later { KeepsLink (K.told link.old) (K.told link.new) }
{
    if !sim.shows() {
        return ServedTurn::Waited;
    }
    match link.send(sim.text()) {
        Ok(()) => ServedTurn::Gave,
        Err(Failed) => ServedTurn::Ended(ServedEnd::Fault),
    }
}
