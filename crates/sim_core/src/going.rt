//! How a simulation goes on by internal moves.
ghost use Rattle.std.specs.Prelude.{◌≡◌, ℕ, ◌<◌, [], Contains, IfSome, IfNone, ◌⊎◌};
ghost use Rattle.lts_base.specs.System.{IsOnQuietCycle};
ghost use Rattle.lts_base.specs.Shape.{IsConvergentOrQuiet};
ghost use Rattle.sim_core.specs.Drawn.{open_moves, IsDrawn};
ghost use Rattle.sim_core.specs.Gone.{Halts, IsGone};

use crate::among::Among;
use crate::draw::draw;
use lts_base::{Act, Lts, Move};
use rand_core::utils::NextWord;

/// Where a simulation stands, and the label of the move that it made last, if that is a visible one.
#[derive(Clone, Copy)]
pub(crate) struct Gone {
    /// The state.
    pub(crate) state: u32,
    /// The label.
    pub(crate) label: Option<u32>,
}

/// Makes internal moves that are drawn among the open ones until a visible one is drawn, or until
/// it comes to a quiet cycle or to a state without open moves.
pub(crate) fn go_on<R: NextWord<u32>>(lts: &Lts, among: Among, from: u32, rng: &mut R) -> Gone
    requires from { from < lts.now.states }
    requires sound { IsConvergentOrQuiet lts.now }
    ensures inside { result.state < lts.now.states }
    ensures gone { IsGone R.step lts.now among (record { at = from; rng = rng.old }) result.label (record { at = result.state; rng = rng.new }) }
{
    let mut state = from;
    // no state off the cycles is passed twice, so there are always some left
    let mut left = lts.states();
    loop {
        let Some(m) = next_move(lts, among, state, rng) else {
            return Gone { state, label: None };
        };
        match m.act {
            Act::Label(label) => {
                return Gone {
                    state: m.to,
                    label: Some(label),
                };
            }
            Act::Tau => {
                state = m.to;
                left -= 1;
            }
        }
    }
}

/// The open move that is drawn at a state which isn't on a quiet cycle, if there is one.
fn next_move<R: NextWord<u32>>(lts: &Lts, among: Among, state: u32, rng: &mut R) -> Option<Move>
    requires { state < lts.now.states }
    ensures away { IfSome result (λ _. ¬ IsOnQuietCycle lts.now state) }
    ensures drawn { IfSome result (λ m. IsDrawn R.step (open_moves lts.now among state) rng.old m rng.new) }
    ensures made { IfSome result (λ m. (m.from ≡ state) × Contains lts.now.moves m × (m.to < lts.now.states)) }
    ensures none { IfNone result (Halts lts.now among state × (rng.new ≡ rng.old)) }
{
    if lts.on_cycle(state) {
        return None;
    }
    draw(rng, lts.moves_of(state), among)
}
