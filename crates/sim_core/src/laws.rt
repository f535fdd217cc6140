//! The laws that join the acts of a simulated implementation to the traces of its system. They
//! have no code.
ghost use Rattle.std.specs.Prelude.{List};
ghost use Rattle.lts_base.specs.declared.item.Item.{Item};
ghost use Rattle.edge_io.specs.declared.act.Act.{Act};
ghost use Rattle.sim_core.specs.declared.serving.ServedTurn.{ServedTurn as TheTurn};
ghost use Rattle.sim_core.specs.Acts.{Simulated};
ghost use Rattle.sim_core.specs.Seen.{AreActsFrom, AreSeenOf, IsTraceBetween, alphabet_of};
ghost use Rattle.sim_core.specs.Served.{Serving, AreGoingTurns, HasActs};

use edge_io::Link;
use rand_core::utils::NextWord;

/// What is seen of the acts of a simulation is the trace of a path of its system, from its state
/// before them to its state after them. An idle hearing is quiescence, which may be counted or not.
pub fn acts_traced<R: NextWord<u32>>()
    ensures { (x y : Simulated R) (acts : List Act) (σ : List Item) → AreActsFrom R.step x acts y → AreSeenOf (alphabet_of x) acts σ → IsTraceBetween x σ y }
{}

/// Something is seen of any acts of a simulation.
pub fn acts_seen<R: NextWord<u32>>()
    ensures { (x y : Simulated R) (acts : List Act) → AreActsFrom R.step x acts y → (σ : List Item) × AreSeenOf (alphabet_of x) acts σ }
{}

/// The turns of a session that is served are acts of the simulation, each is one: so what was taken
/// and written is such a trace too.
pub fn turns_acted<K: Link, R: NextWord<u32>>()
    ensures { (p q : Serving R K.State) (turns : List TheTurn) → AreGoingTurns K.gives R.step p turns q → HasActs R.step p turns q }
{}
