//! Moves that a generator draws.
ghost use Rattle.std.specs.Prelude.{◌≡◌, ℕ, ◌<◌, ◌≤◌, [], length, IfSome, IfNone, slice_index_or as get_or};
ghost use Rattle.lts_base.specs.declared.action.Move.{Move as TheMove};
ghost use Rattle.sim_core.specs.Drawn.{open_of, choices_of, IsDrawn};

use crate::among::Among;
use lts_base::Move;
use rand_core::utils::NextWord;

/// How many of the moves are among.
pub(crate) fn count_open(moves: &[Move], among: Among) -> usize
    ensures count { result ≡ length (open_of among moves.now) }
    ensures few { result ≤ length moves.now }
{
    let mut count = 0;
    for m in moves {
        if among.has(m.act) {
            count += 1;
        }
    }
    count
}

/// Number k, from 0, of the moves that are among.
fn nth_open(moves: &[Move], among: Among, k: usize) -> Option<Move>
    ensures some { IfSome result (λ m. (k < length (open_of among moves.now)) × ((d : TheMove) → m ≡ get_or (open_of among moves.now) k d)) }
    ensures none { IfNone result (length (open_of among moves.now) ≤ k) }
{
    let mut left = k;
    for m in moves {
        if among.has(m.act) {
            if left == 0 {
                return Some(*m);
            }
            left -= 1;
        }
    }
    None
}

/// One of the open moves, as the generator draws it; None where there is none.
pub(crate) fn draw<R: NextWord<u32>>(rng: &mut R, moves: &[Move], among: Among) -> Option<Move>
    ensures drawn { IfSome result (λ m. IsDrawn R.step (open_of among moves.now) rng.old m rng.new) }
    ensures none { IfNone result ((open_of among moves.now ≡ []) × (rng.new ≡ rng.old)) }
{
    let count = count_open(moves, among);
    if count == 0 {
        return None;
    }
    let word = rng.next_word();
    let k = u64::from(word) % count as u64;
    let drawn = nth_open(moves, among, k as usize);
    prove!(drawn.is_some());
    drawn
}

/// One of the open moves or, last among what it draws from, none of them.
pub(crate) fn draw_or_stay<R: NextWord<u32>>(
    rng: &mut R,
    moves: &[Move],
    among: Among,
) -> Option<Move>
    ensures { IsDrawn R.step (choices_of among moves.now) rng.old result rng.new }
{
    let count = count_open(moves, among);
    let word = rng.next_word();
    let k = u64::from(word) % (count as u64 + 1);
    nth_open(moves, among, k as usize)
}
