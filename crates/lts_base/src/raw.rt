//! A system as a file holds it: its labels are texts that no rule has sorted yet.
ghost use Rattle.std.specs.Prelude.{◌≡◌, ℕ, ◌^◌, ◌<◌, length, map, take, All, IfOk, IfErr, MatchResult};
ghost use Rattle.lts_base.specs.System.{IsMoveOf};
ghost use Rattle.lts_base.specs.Built.{RefusesParts, HasFirstFault};
ghost use Rattle.lts_base.specs.Raw.{RawSystem, IsRaw, AreLabelsOf, as_move};

use crate::action::{Act, Move};
use crate::list::Texts;
use crate::raw_moves::RawMoves;
use crate::system::{LtsError, test_move, test_start};
use std::marker::Model;

/// A move of a file. The label is a place in the file's list of labels; None is the internal
/// action.
#[derive(Clone, Copy, PartialEq, Eq, Debug)]
pub struct RawMove {
    /// The state that the move leaves.
    pub from: u32,
    /// The label that the move carries.
    pub label: Option<u32>,
    /// The state that the move leads to.
    pub to: u32,
}

impl RawMove {
    /// The move with the label's place in the file's list as its number.
    #[inline(always)]
    pub fn as_move(&self) -> Move
        ensures { result ≡ as_move self.now }
    {
        let act = match self.label {
            None => Act::Tau,
            Some(label) => Act::Label(label),
        };
        Move {
            from: self.from,
            act,
            to: self.to,
        }
    }
}

/// A system as a file holds it.
#[derive(Drop, Debug)]
pub struct RawLts {
    states: u32,
    start: u32,
    labels: Texts,
    moves: RawMoves,
}

impl Model for RawLts {
    ghost use Rattle.lts_base.specs.Raw.{RawSystem, IsRaw};

    ghost Value = { RawSystem };

    ghost view = { λ a. record { states = a.states; start = a.start; labels = a.labels; moves = a.moves } };

    ghost invariant = { λ a. IsRaw (record { states = a.states; start = a.start; labels = a.labels; moves = a.moves }) };
}

impl RawLts {
    /// The system of these parts. The labels are the moves' labels, in the order of first use.
    pub fn build(
        states: u32,
        start: u32,
        labels: Texts,
        moves: RawMoves,
    ) -> Result<RawLts, LtsError>
        requires moves { length moves < 2 ^ 32 }
        requires labels { AreLabelsOf moves labels }
        ensures ok { IfOk result (λ r. r ≡ record { states = states; start = start; labels = labels; moves = moves }) }
        ensures raw { IfOk result IsRaw }
        ensures err { IfErr result (RefusesParts states start (length labels) (map as_move moves)) }
    {
        test_start(states, start)?;
        test_raw_moves(states, labels.as_slice().len() as u32, &moves)?;
        Ok(RawLts {
            states,
            start,
            labels,
            moves,
        })
    }

    /// How many states there are; they are the numbers below this.
    pub fn states(&self) -> u32
        ensures states { result ≡ self.now.states }
        ensures raw { IsRaw self.now }
    {
        self.states
    }

    /// The start state.
    pub fn start(&self) -> u32
        ensures start { result ≡ self.now.start }
        ensures raw { IsRaw self.now }
    {
        self.start
    }

    /// The texts of the labels, in the order of first use.
    pub fn labels(&self) -> &Texts
        ensures labels { result.now ≡ self.now.labels }
        ensures raw { IsRaw self.now }
    {
        &self.labels
    }

    /// The moves in the file's order.
    pub fn moves(&self) -> &RawMoves
        ensures moves { result.now ≡ self.now.moves }
        ensures raw { IsRaw self.now }
    {
        &self.moves
    }
}

fn test_raw_moves(states: u32, labels: u32, moves: &RawMoves) -> Result<(), LtsError>
    requires { length moves.now < 2 ^ 32 }
    ensures { MatchResult result (λ _. All (IsMoveOf states labels) (map as_move moves.now)) (HasFirstFault states labels (map as_move moves.now)) }
{
    for place in 0..moves.count() {
        test_move(states, labels, place as u32, moves.at(place).as_move())?;
    }
    Ok(())
}
