//! A labelled transition system: states, a start state, and moves that are found by their state.
ghost use Rattle.std.specs.Prelude.{◌≡◌, ◌↔◌, ℕ, ◌+◌, ◌-◌, ◌^◌, ◌<◌, ◌≤◌, List, length, filter, All, IsTrue, IfOk, IfErr, MatchResult};
ghost use Rattle.std.specs.List.Sorted.{IsPermutation, IsPartitionPoint};
ghost use Rattle.lts_base.specs.System.{System, IsSystem, IsActOf, IsMoveOf, IsStable, GivesNoOutput, IsQuiet, IsOnQuietCycle, AreMovesOf, leaves, quieted};
ghost use Rattle.lts_base.specs.Built.{RefusesParts, IsBuiltOf, IsFaultOf, HasFirstFault, AreByState, AreOffsets};

use crate::action::{Act, Move};
use crate::cycles::cycle_flags;
use crate::divergence::Divergence;
use crate::labels::Labels;
use crate::list::Listed;
use crate::memory::Memory;
use crate::ordering::put_in_order;
use std::alloc::{AllocError, Global};
use std::marker::Model;

/// Moves, in any order.
pub type Moves = Listed<Move>;

/// Systems.
pub type Systems = Listed<Lts>;

/// Why parts make no system.
#[derive(Clone, Copy, PartialEq, Eq, Debug)]
pub enum LtsError {
    /// There is no state.
    NoState,
    /// The start isn't below the number of states.
    StartRange,
    /// The first move at fault, by its index from 0, leaves or leads to no state.
    StateRange(u32),
    /// The first move at fault, by its index from 0, has a label out of range.
    LabelRange(u32),
    /// Memory ran out.
    Memory,
}

impl From<AllocError> for LtsError {
    ghost use Rattle.std.specs.Prelude.{◌≡◌};
    ghost use Rattle.lts_base.specs.declared.system.LtsError.TheVariants.{Memory as OutOfMemory};

    ghost from_gives = { λ _ e. e ≡ OutOfMemory };

    fn from(_error: AllocError) -> LtsError {
        LtsError::Memory
    }
}

impl From<Memory> for LtsError {
    ghost use Rattle.std.specs.Prelude.{◌≡◌};
    ghost use Rattle.lts_base.specs.declared.system.LtsError.TheVariants.{Memory as OutOfMemory};

    ghost from_gives = { λ _ e. e ≡ OutOfMemory };

    fn from(_error: Memory) -> LtsError {
        LtsError::Memory
    }
}

/// A labelled transition system over an alphabet. Its moves are sorted, repeats are kept.
#[derive(Drop, Debug)]
pub struct Lts {
    states: u32,
    start: u32,
    inputs: u32,
    outputs: u32,
    divergence: Divergence,
    moves: Vec<Move>,
    // the place of each state's first move, and the number of moves at the end
    offsets: Vec<u32>,
    // whether each state lies on a cycle of internal moves; empty where nobody asks
    flags: Vec<bool>,
}

impl Model for Lts {
    ghost use Rattle.lts_base.specs.System.{System};
    ghost use Rattle.lts_base.specs.Built.{system_of, IsLaidOut};

    ghost Value = { System };

    ghost view = { λ a. system_of a.states a.start a.inputs a.outputs a.divergence a.moves.items };

    ghost invariant = { λ a. IsLaidOut (system_of a.states a.start a.inputs a.outputs a.divergence a.moves.items) a.offsets.items a.flags.items };
}

impl Lts {
    /// The system of these parts, over these labels; cycles of internal moves mean nothing in it.
    pub fn build(
        alloc: Global,
        states: u32,
        start: u32,
        labels: &Labels,
        moves: Moves,
    ) -> Result<Lts, LtsError>
        requires { length moves < 2 ^ 32 }
        ensures ok { IfOk result (IsBuiltOf states start labels.now) }
        ensures moves { IfOk result (λ s. IsPermutation moves s.moves) }
        ensures system { IfOk result IsSystem }
        ensures err { IfErr result (RefusesParts states start (length labels.now.texts) moves) }
    {
        test_start(states, start)?;
        let count = labels.count();
        let inputs = labels.inputs();
        test_moves(states, count, moves.as_slice())?;
        let mut moves = moves.into_vec();
        put_in_order(&mut moves);
        let offsets = offsets_of(alloc, states, &moves)?;
        Ok(Lts {
            states,
            start,
            inputs,
            outputs: count - inputs,
            divergence: Divergence::Refuse,
            moves,
            offsets,
            flags: Vec::new(alloc),
        })
    }

    /// The same system, read so that a state on a cycle of internal moves is quiet. It takes time
    /// linear in the states and moves.
    pub fn quieted(&self, alloc: Global) -> Result<Lts, Memory>
        ensures quiet { IfOk result (λ s. s ≡ quieted self.now) }
        ensures system { IfOk result IsSystem }
    {
        let flags = cycle_flags(alloc, self)?;
        Ok(Lts {
            states: self.states,
            start: self.start,
            inputs: self.inputs,
            outputs: self.outputs,
            divergence: Divergence::Quiet,
            moves: Vec::from_slice(alloc, &self.moves)?,
            offsets: Vec::from_slice(alloc, &self.offsets)?,
            flags,
        })
    }

    /// How many states there are; they are the numbers below this.
    pub fn states(&self) -> u32
        ensures states { result ≡ self.now.states }
        ensures system { IsSystem self.now }
    {
        self.states
    }

    /// The start state.
    pub fn start(&self) -> u32
        ensures start { result ≡ self.now.start }
        ensures system { IsSystem self.now }
    {
        self.start
    }

    /// How many of the labels are inputs.
    pub fn inputs(&self) -> u32
        ensures inputs { result ≡ self.now.inputs }
        ensures system { IsSystem self.now }
    {
        self.inputs
    }

    /// How many of the labels are outputs.
    pub fn outputs(&self) -> u32
        ensures outputs { result ≡ self.now.outputs }
        ensures system { IsSystem self.now }
    {
        self.outputs
    }

    /// How cycles of internal moves are read.
    pub fn divergence(&self) -> Divergence
        ensures divergence { result ≡ self.now.divergence }
        ensures system { IsSystem self.now }
    {
        self.divergence
    }

    /// Whether the state lies on a cycle of internal moves, in a system that reads such states as
    /// quiet; else it is false.
    pub fn on_cycle(&self, state: u32) -> bool
        requires { state < self.now.states }
        ensures { IsTrue result ↔ IsOnQuietCycle self.now state }
    {
        match self.divergence {
            Divergence::Refuse => false,
            Divergence::Quiet => self.flags[state as usize],
        }
    }

    /// All moves, sorted, with repeats.
    pub fn moves(&self) -> &[Move]
        ensures moves { result.now ≡ self.now.moves }
        ensures system { IsSystem self.now }
    {
        &self.moves
    }

    /// The moves that leave the state, in constant time.
    pub fn moves_of(&self, state: u32) -> &[Move]
        requires { state < self.now.states }
        ensures value { result.now ≡ filter (leaves state) self.now.moves }
        ensures these { AreMovesOf self.now state result.now }
        ensures system { IsSystem self.now }
    {
        let from = self.offsets[state as usize] as usize;
        let to = self.offsets[state as usize + 1] as usize;
        &self.moves[from..to]
    }
}

/// Whether the start is one of the states.
pub(crate) fn test_start(states: u32, start: u32) -> Result<(), LtsError>
    ensures { MatchResult result (λ _. start < states) (λ e. (n : ℕ) (moves : List Move) → RefusesParts states start n moves e) }
{
    if states == 0 {
        return Err(LtsError::NoState);
    }
    if start >= states {
        return Err(LtsError::StartRange);
    }
    Ok(())
}

/// Whether the move, which has this index, stays within the states and the labels.
pub(crate) fn test_move(states: u32, labels: u32, index: u32, m: Move) -> Result<(), LtsError>
    ensures { MatchResult result (λ _. IsMoveOf states labels m) (λ e. IsFaultOf states labels m index e) }
{
    if m.from >= states {
        return Err(LtsError::StateRange(index));
    }
    if m.to >= states {
        return Err(LtsError::StateRange(index));
    }
    test_act(labels, index, m.act)
}

fn test_act(labels: u32, index: u32, act: Act) -> Result<(), LtsError>
    ensures { MatchResult result (λ _. IsActOf labels act) (λ e. (e ≡ LtsError.LabelRange index) × (IsActOf labels act → ⊥)) }
{
    match act {
        Act::Tau => Ok(()),
        Act::Label(label) => {
            if label >= labels {
                return Err(LtsError::LabelRange(index));
            }
            Ok(())
        }
    }
}

fn test_moves(states: u32, labels: u32, moves: &[Move]) -> Result<(), LtsError>
    requires { length moves.now < 2 ^ 32 }
    ensures { MatchResult result (λ _. All (IsMoveOf states labels) moves.now) (HasFirstFault states labels moves.now) }
{
    for (index, m) in moves.iter().enumerate() {
        test_move(states, labels, index as u32, *m)?;
    }
    Ok(())
}

/// The place of each state's first move among moves that stand by state.
fn offsets_of(alloc: Global, states: u32, moves: &[Move]) -> Result<Vec<u32>, AllocError>
    requires few { length moves.now < 2 ^ 32 }
    requires sorted { AreByState moves.now }
    ensures { IfOk result (λ v. AreOffsets states moves.now v.items) }
{
    let mut offsets = Vec::with_capacity(alloc, states as usize + 1)?;
    for state in 0..states {
        offsets.push(first_move(moves, state) as u32)?;
    }
    offsets.push(first_move(moves, states) as u32)?;
    Ok(offsets)
}

/// The place of the first move that leaves the state or a later one.
fn first_move(moves: &[Move], state: u32) -> usize
    requires { AreByState moves.now }
    ensures within { result ≤ length moves.now }
    ensures point { IsPartitionPoint (λ (m : _). m.from < state) (λ (m : _). state ≤ m.from) moves.now result }
{
    moves.partition_point(|m| m.from < state)
}

/// Whether the state is quiet: no internal move and no output leaves it, or it lies on a cycle of
/// internal moves that is read as quiet (Tretmans, "Model Based Testing with Labelled Transition
/// Systems", quiescence).
pub fn is_quiet(lts: &Lts, state: u32) -> bool
    requires { state < lts.now.states }
    ensures { IsTrue result ↔ IsQuiet lts.now state }
{
    lts.on_cycle(state) || takes_inputs_alone(lts, state)
}

/// Whether each move that leaves the state has an input.
fn takes_inputs_alone(lts: &Lts, state: u32) -> bool
    requires { state < lts.now.states }
    ensures { IsTrue result ↔ (IsStable lts.now state × GivesNoOutput lts.now state) }
{
    let inputs = lts.inputs();
    let moves = lts.moves_of(state);
    'moves: for m in moves {
        match m.act {
            Act::Tau => return false,
            Act::Label(label) => {
                if label >= inputs {
                    return false;
                }
            }
        }
    }
    true
}
