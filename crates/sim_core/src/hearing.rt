//! What is heard of a simulation.
ghost use Rattle.std.specs.Prelude.{◌≡◌, ◌<◌};
ghost use Rattle.lts_base.specs.System.{IsOnQuietCycle};
ghost use Rattle.lts_base.specs.Shape.{IsConvergentOrQuiet};
ghost use Rattle.sim_core.specs.Simulated.{Hears, Leaves, Looks};

use crate::among::Among;
use crate::draw::draw_or_stay;
use crate::going::{Gone, go_on};
use lts_base::{Act, Lts};
use rand_core::utils::NextWord;

/// What a hearing shows from the state: the label of an output, or nothing.
pub(crate) fn hear_from<R: NextWord<u32>>(lts: &Lts, from: u32, rng: &mut R) -> Gone
    requires from { from < lts.now.states }
    requires sound { IsConvergentOrQuiet lts.now }
    ensures inside { result.state < lts.now.states }
    ensures heard { Hears R.step lts.now (record { at = from; rng = rng.old }) result.label (record { at = result.state; rng = rng.new }) }
{
    if lts.on_cycle(from) {
        leave(lts, from, rng)
    } else {
        go_on(lts, Among::Outputs(lts.inputs()), from, rng)
    }
}

/// What a hearing shows from a state on a quiet cycle.
fn leave<R: NextWord<u32>>(lts: &Lts, from: u32, rng: &mut R) -> Gone
    requires from { from < lts.now.states }
    requires sound { IsConvergentOrQuiet lts.now }
    ensures inside { result.state < lts.now.states }
    ensures left { Leaves R.step lts.now (record { at = from; rng = rng.old }) result.label (record { at = result.state; rng = rng.new }) }
{
    let among = Among::Outputs(lts.inputs());
    let Some(m) = draw_or_stay(rng, lts.moves_of(from), among) else {
        return Gone {
            state: from,
            label: None,
        };
    };
    match m.act {
        Act::Tau => go_on(lts, among, m.to, rng),
        Act::Label(label) => Gone {
            state: m.to,
            label: Some(label),
        },
    }
}

/// What a look shows from the state: nothing, or what a hearing shows.
pub(crate) fn look_from<R: NextWord<u32>>(lts: &Lts, from: u32, rng: &mut R) -> Gone
    requires from { from < lts.now.states }
    requires sound { IsConvergentOrQuiet lts.now }
    ensures inside { result.state < lts.now.states }
    ensures looked { Looks R.step lts.now (record { at = from; rng = rng.old }) result.label (record { at = result.state; rng = rng.new }) }
{
    let word = rng.next_word();
    if word % 2 == 0 {
        Gone {
            state: from,
            label: None,
        }
    } else {
        hear_from(lts, from, rng)
    }
}
