//! The moves of a state in the order of what they carry.
ghost use Rattle.std.specs.Prelude.{◌≡◌, ℕ, ◌<◌, ◌≤◌, length, nat_lt, All};
ghost use Rattle.std.specs.List.Sorted.{IsNonDecreasingBy, IsPartitionPoint};
ghost use Rattle.lts_base.specs.declared.action.Move.{Move as TheMove};
ghost use Rattle.lts_base.specs.System.{act_place, label_count, Takes};
ghost use Rattle.state_sets.specs.Finds.{IsLeastFrom, IsTakenIn};
ghost use Rattle.state_sets.specs.Places.{ComeBefore};

use lts_base::{Act, Lts, Move};

/// Whether what a move carries comes before another action: Tau first, then the labels by number.
fn is_before(act: Act, other: Act) -> bool
    ensures { result ≡ nat_lt (act_place act) (act_place other) }
{
    match act {
        Act::Tau => match other {
            Act::Tau => false,
            Act::Label(_) => true,
        },
        Act::Label(label) => match other {
            Act::Tau => false,
            Act::Label(number) => label < number,
        },
    }
}

/// How many moves are looked at in turn before a search by halves.
const NEAR: usize = 16;

/// The place of the first move with the action or a later one, among moves in that order.
fn by_halves(moves: &[Move], act: Act) -> usize
    requires { IsNonDecreasingBy (λ (m : TheMove). act_place m.act) moves.now }
    ensures within { result ≤ length moves.now }
    ensures point { IsPartitionPoint (λ (m : TheMove). act_place m.act < act_place act) (λ (m : TheMove). act_place act ≤ act_place m.act) moves.now result }
{
    moves.partition_point(|m| is_before(m.act, act))
}

/// The place itself, if all moves before it come before the action; else 0.
fn start_at(moves: &[Move], act: Act, place: usize) -> usize
    requires { IsNonDecreasingBy (λ (m : TheMove). act_place m.act) moves.now }
    ensures within { result ≤ length moves.now }
    ensures before { ComeBefore moves.now act result }
{
    if place == 0 {
        return 0;
    }
    if place > moves.len() {
        return 0;
    }
    if is_before(moves[place - 1].act, act) {
        return place;
    }
    0
}

/// As `by_halves`, with a place where to look first: quick where it is the one, and any will do.
pub(crate) fn first_from(moves: &[Move], act: Act, hint: usize) -> usize
    requires { IsNonDecreasingBy (λ (m : TheMove). act_place m.act) moves.now }
    ensures within { result ≤ length moves.now }
    ensures point { IsPartitionPoint (λ (m : TheMove). act_place m.act < act_place act) (λ (m : TheMove). act_place act ≤ act_place m.act) moves.now result }
{
    if let Act::Tau = act {
        return 0;
    }
    let from = start_at(moves, act, hint);
    let near = from + NEAR.min(moves.len() - from);
    'places: for place in from..near {
        if !is_before(moves[place].act, act) {
            return place;
        }
    }
    near + by_halves(&moves[near..], act)
}

/// The least label from `from` on with which a move leaves the state, where it is below `most`;
/// else `most`.
fn state_label(lts: &Lts, state: u32, from: u32, most: u32) -> u32
    requires state { state < lts.now.states }
    requires from { from ≤ most }
    ensures { IsLeastFrom (Takes lts.now state) from most result }
{
    let moves = lts.moves_of(state);
    let place = first_from(moves, Act::Label(from), 0);
    if place >= moves.len() {
        return most;
    }
    let Act::Label(label) = moves[place].act else {
        return most;
    };
    if label < most {
        return label;
    }
    most
}

/// The least label from `from` on with which a move leaves some member of the list; where there is
/// none, the number of labels.
pub fn label_from(lts: &Lts, set: &[u32], from: u32) -> u32
    requires set { All (λ (q : ℕ). q < lts.now.states) set.now }
    requires from { from ≤ label_count lts.now }
    ensures { IsLeastFrom (IsTakenIn lts.now set.now) from (label_count lts.now) result }
{
    let mut least = lts.inputs() + lts.outputs();
    'states: for state in set {
        if least == from {
            return least;
        }
        least = state_label(lts, *state, from, least);
    }
    least
}
