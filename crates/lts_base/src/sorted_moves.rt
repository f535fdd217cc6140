//! Moves that are sorted as numbers, which takes a fraction of the time that three fields take.
ghost use Rattle.std.specs.Prelude.{◌≡◌, [], ◌∷◌, ◌++◌, length, map, IfOk, IfSome, OnOk};
ghost use Rattle.std.specs.List.Sorted.{IsPermutation};
ghost use Rattle.lts_base.specs.MoveNumber.{move_of};

use crate::action::{Act, Move};
use crate::list::Listed;
use crate::move_number::{pack, unpack};
use crate::raw::RawMove;
use crate::system::Moves;
use std::alloc::{AllocError, Global};
use std::marker::Model;

/// The moves so far. Those that come in last are kept as numbers until they are sorted.
#[derive(Drop)]
pub(crate) struct SortedMoves {
    moves: Vec<Move>,
    keys: Vec<u64>,
    // the state that the last move leaves
    state: u32,
    // whether the states that the moves leave ascend, so that those of one state can be sorted apart
    by_state: bool,
}

impl Model for SortedMoves {
    ghost use Rattle.std.specs.Prelude.{List, ◌++◌, map};
    ghost use Rattle.lts_base.specs.declared.action.Move.{Move as Step};
    ghost use Rattle.lts_base.specs.MoveNumber.{move_of};

    ghost Value = { List Step };

    ghost view = { λ a. a.moves.items ++ map move_of a.keys.items };
}

impl SortedMoves {
    /// No moves, with room for so many; whether the states that they will leave ascend.
    pub(crate) fn new(alloc: Global, room: usize, by_state: bool) -> Result<SortedMoves, AllocError>
        ensures { IfOk result (λ moves. moves ≡ []) }
    {
        let moves = Vec::with_capacity(alloc, room)?;
        let keys = Vec::with_capacity(alloc, if by_state { 0 } else { room })?;
        Ok(SortedMoves {
            moves,
            keys,
            state: 0,
            by_state,
        })
    }

    /// Adds a move.
    pub(crate) fn add(&mut self, m: Move) -> Result<(), AllocError>
        ensures { OnOk result (IsPermutation (self.old ++ m ∷ []) self.new) }
    {
        self.turn_to(m.from)?;
        self.put(m)?;
        Ok(())
    }

    /// Keeps the move, as a number where it has one.
    fn put(&mut self, m: Move) -> Result<(), AllocError>
        ensures { OnOk result (IsPermutation (self.old ++ m ∷ []) self.new) }
    {
        match key_of(m) {
            Some(key) => self.keys.push(key)?,
            None => self.moves.push(m)?,
        }
        Ok(())
    }

    /// Sorts the moves of the state before, where this is another and no more of them come.
    fn turn_to(&mut self, state: u32) -> Result<(), AllocError>
        ensures { OnOk result (IsPermutation self.old self.new) }
    {
        if !self.by_state || state == self.state {
            return Ok(());
        }
        self.state = state;
        sort_and_put(&mut self.moves, &mut self.keys)?;
        Ok(())
    }

    /// All moves.
    pub(crate) fn into_moves(mut self) -> Result<Moves, AllocError>
        ensures { IfOk result (IsPermutation self) }
    {
        sort_and_put(&mut self.moves, &mut self.keys)?;
        Ok(Listed::from_vec(self.moves))
    }
}

/// Sorts the numbers and puts their moves behind the others.
fn sort_and_put(moves: &mut Vec<Move>, keys: &mut Vec<u64>) -> Result<(), AllocError>
    ensures moves { OnOk result (IsPermutation (moves.old.items ++ map move_of keys.old.items) moves.new.items) }
    ensures none { OnOk result (keys.new.items ≡ []) }
{
    keys.sort_unstable();
    put_all(moves, keys)?;
    keys.clear();
    Ok(())
}

fn put_all(moves: &mut Vec<Move>, keys: &[u64]) -> Result<(), AllocError>
    ensures { OnOk result (moves.new.items ≡ moves.old.items ++ map move_of keys.now) }
{
    'keys: for key in keys {
        moves.push(move_of(*key))?;
    }
    Ok(())
}

/// The move that the number stands for.
#[inline(always)]
fn move_of(key: u64) -> Move
    ensures { result ≡ move_of key }
{
    unpack(key).as_move()
}

/// The number of the move, where it has one.
#[inline(always)]
fn key_of(m: Move) -> Option<u64>
    ensures { IfSome result (λ key. move_of key ≡ m) }
{
    let label = match m.act {
        Act::Tau => None,
        Act::Label(label) => Some(label),
    };
    pack(RawMove {
        from: m.from,
        label,
        to: m.to,
    })
}
