//! The moves of a state with one action. A state's moves stand in the order of their actions, so
//! they are found by halves.
ghost use Rattle.std.specs.Prelude.{◌≡◌, ◌↔◌, ℕ, ◌<◌, ◌≤◌, length, IsTrue, OnOk};
ghost use Rattle.std.specs.List.Sorted.{IsNonDecreasingBy, IsPartitionPoint};
ghost use Rattle.lts_base.specs.declared.action.Move.{Move as TheMove};
ghost use Rattle.lts_base.specs.System.{HasMove, act_place};
ghost use Rattle.lts_base.specs.Finds.{Adds};
ghost use Rattle.cert_check.specs.Runs.{AreMovesWith, move_place};

use crate::marks::Marks;
use lts_base::{Act, Lts, Memory, Move};

/// The moves of the state with the action.
fn moves_with(lts: &Lts, state: u32, act: Act) -> &[Move]
    requires { state < lts.now.states }
    ensures { AreMovesWith lts.now state act result.now }
{
    let moves = lts.moves_of(state);
    let place = place_of(act);
    let rest = &moves[first_from(moves, place)..];
    &rest[..first_from(rest, place + 1)]
}

/// The place of an action: Tau comes first, and then the labels.
fn place_of(act: Act) -> u64
    ensures value { result ≡ act_place act }
    ensures small { result ≤ 4294967296 }
{
    match act {
        Act::Tau => 0,
        Act::Label(label) => label as u64 + 1,
    }
}

/// How many moves come before this place.
fn first_from(moves: &[Move], place: u64) -> usize
    requires { IsNonDecreasingBy move_place moves.now }
    ensures within { result ≤ length moves.now }
    ensures point { IsPartitionPoint (λ (m : TheMove). move_place m < place) (λ (m : TheMove). place ≤ move_place m) moves.now result }
{
    moves.partition_point(|m| place_of(m.act) < place)
}

/// Whether a move with the action leaves the state.
pub fn has_move(lts: &Lts, state: u32, act: Act) -> bool
    requires { state < lts.now.states }
    ensures { IsTrue result ↔ ((q : ℕ) × HasMove lts.now state act q) }
{
    !moves_with(lts, state, act).is_empty()
}

/// Adds the states that the state's moves with the action lead to.
pub fn spread(lts: &Lts, marks: &mut Marks, state: u32, act: Act) -> Result<(), Memory>
    requires states { marks.old.states ≡ lts.now.states }
    requires state { state < lts.now.states }
    ensures states { marks.new.states ≡ marks.old.states }
    ensures adds { OnOk result (Adds (HasMove lts.now state act) marks.old.found marks.new.found) }
{
    let moves = moves_with(lts, state, act);
    'moves: for m in moves {
        marks.add(m.to)?;
    }
    Ok(())
}
