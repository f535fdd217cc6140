//! Moves put in the order of a system. Most files have the moves of a state together, so that each
//! state's moves are sorted for themselves; whether that gave the order is tested afterwards.
ghost use Rattle.std.specs.Prelude.{◌≡◌, ◌<◌, ◌≤◌, length, IsTrue};
ghost use Rattle.std.specs.List.Sorted.{IsPermutation};
ghost use Rattle.lts_base.specs.System.{AreSorted};

use crate::action::Move;

/// Sorts the moves.
pub(crate) fn put_in_order(moves: &mut Vec<Move>)
    ensures permutation { IsPermutation moves.old.items moves.new.items }
    ensures sorted { AreSorted moves.new.items }
{
    if are_sorted(moves) {
        return;
    }
    sort_states(moves);
    if !are_sorted(moves) {
        moves.sort_unstable();
    }
}

/// Whether the moves are sorted; it may be said wrongly that they aren't.
fn are_sorted(moves: &[Move]) -> bool
    ensures { IsTrue result → AreSorted moves.now }
{
    moves.is_sorted()
}

/// Sorts the moves of each state that stand together.
fn sort_states(moves: &mut [Move])
    ensures { IsPermutation moves.old moves.new }
{
    let mut from = 0;
    while from < moves.len() {
        let to = end_of_state(moves, from);
        moves[from..to].sort_unstable();
        from = to;
    }
}

/// The place after the moves that leave the same state as the one at this place.
fn end_of_state(moves: &[Move], from: usize) -> usize
    requires { from < length moves.now }
    ensures more { from < result }
    ensures within { result ≤ length moves.now }
{
    let state = moves[from].from;
    let mut to = from + 1;
    while to < moves.len() && moves[to].from == state {
        to += 1;
    }
    to
}
