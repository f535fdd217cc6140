//! How a simulation takes an input.
ghost use Rattle.std.specs.Prelude.{◌≡◌, ◌<◌, []};
ghost use Rattle.lts_base.specs.System.{IsOnQuietCycle};
ghost use Rattle.sim_core.specs.Simulated.{Detours, TakesInput};
ghost use Rattle.sim_core.specs.Gone.{IsSimulating, CanTake};

use crate::among::Among;
use crate::detour::least_taker;
use crate::draw::draw;
use crate::finds::FoundStates;
use crate::going::go_on;
use lts_base::Lts;
use rand_core::utils::NextWord;

/// The state after the input was taken in this one. The finds are the room for a search.
pub(crate) fn take_from<R: NextWord<u32>>(
    lts: &Lts,
    finds: &mut FoundStates,
    from: u32,
    input: u32,
    rng: &mut R,
) -> u32
    requires simulating { IsSimulating lts.now from }
    requires states { finds.old.states ≡ lts.now.states }
    requires found { finds.old.found ≡ [] }
    requires input { input < lts.now.inputs }
    ensures inside { result < lts.now.states }
    ensures taken { TakesInput R.step lts.now (record { at = from; rng = rng.old }) input (record { at = result; rng = rng.new }) }
    ensures states { finds.new.states ≡ finds.old.states }
    ensures found { finds.new.found ≡ [] }
{
    let gone = go_on(lts, Among::Taking(input), from, rng);
    match gone.label {
        Some(_) => gone.state,
        None => detour(lts, finds, gone.state, input, rng),
    }
}

/// The same on a quiet cycle: by the least way.
fn detour<R: NextWord<u32>>(
    lts: &Lts,
    finds: &mut FoundStates,
    from: u32,
    input: u32,
    rng: &mut R,
) -> u32
    requires from { from < lts.now.states }
    requires cycle { IsOnQuietCycle lts.now from }
    requires able { CanTake lts.now input from }
    requires states { finds.old.states ≡ lts.now.states }
    requires found { finds.old.found ≡ [] }
    ensures inside { result < lts.now.states }
    ensures taken { Detours R.step lts.now (record { at = from; rng = rng.old }) input (record { at = result; rng = rng.new }) }
    ensures states { finds.new.states ≡ finds.old.states }
    ensures found { finds.new.found ≡ [] }
{
    let taker = least_taker(lts, finds, from, input);
    let Some(m) = draw(rng, lts.moves_of(taker), Among::Only(input)) else {
        unreachable!()
    };
    m.to
}
