//! The completion of a system by loops: an input that a state can't take leaves it where it is.
ghost use Rattle.std.specs.Prelude.{◌≡◌, ℕ, ◌+◌, ◌<◌, ◌≤◌, ◌∷◌, ◌++◌, [], length, OnOk, IfOk, IfErr, MatchResult, ◌⊎◌};
ghost use Rattle.lts_base.specs.declared.limits.TheConstants.{MOST_MOVES};
ghost use Rattle.lts_base.specs.Alphabet.{IsOver};
ghost use Rattle.lts_base.specs.Shape.{IsInputEnabled};
ghost use Rattle.lts_shape.specs.Groups.{AreGroups};
ghost use Rattle.lts_base.specs.System.{System};
ghost use Rattle.lts_shape.specs.Angelic.{IsAngelic, RefusesAngelic, IsReadAs, IsCompletion, AreLoopsUpTo, IsFull, loop_with};

use crate::groups::{Groups, groups_of};
use crate::inputs::takers;
use crate::reached::marks_of;
use lts_base::limits::MOST_MOVES;
use lts_base::{Act, Divergence, Labels, Lts, Memory, Move, Moves};
use state_sets::Search;
use std::alloc::Global;

/// Why a system isn't completed.
#[derive(Clone, Copy, PartialEq, Eq, Debug)]
pub enum ShapeError {
    /// There would be more than `MOST_MOVES` moves.
    TooManyMoves,
    /// Memory ran out.
    Memory,
}

impl From<Memory> for ShapeError {
    ghost use Rattle.std.specs.Prelude.{◌≡◌};
    ghost use Rattle.lts_shape.specs.declared.completion.ShapeError.TheVariants.{Memory as OutOfMemory};

    ghost from_gives = { λ _ e. e ≡ OutOfMemory };

    fn from(_error: Memory) -> ShapeError {
        ShapeError::Memory
    }
}

/// The system with a loop for each state and each input that can't follow moves with Tau from it,
/// so that it is input-enabled. It takes, for each input, time linear in the states and moves.
pub fn angelic(alloc: Global, lts: &Lts, labels: &Labels) -> Result<Lts, ShapeError>
    requires { IsOver labels.now lts.now }
    ensures ok { IfOk result (IsAngelic lts.now) }
    ensures enabled { IfOk result IsInputEnabled }
    ensures within { IfOk result (λ t. length t.moves ≤ MOST_MOVES) }
    ensures err { IfErr result (RefusesAngelic lts.now) }
    ensures exact { (t : System) → IsAngelic lts.now t → IsCompletion t result }
{
    whole(alloc, lts, labels)
}

fn whole(alloc: Global, lts: &Lts, labels: &Labels) -> Result<Lts, ShapeError>
    requires { IsOver labels.now lts.now }
    ensures ok { IfOk result (IsAngelic lts.now) }
    ensures enabled { IfOk result IsInputEnabled }
    ensures within { IfOk result (λ t. length t.moves ≤ MOST_MOVES) }
    ensures err { IfErr result (RefusesAngelic lts.now) }
{
    let states = lts.states();
    let start = lts.start();
    if lts.moves().len() > MOST_MOVES as usize {
        return Err(ShapeError::TooManyMoves);
    }
    let moves = completed(alloc, lts)?;
    match Lts::build(alloc, states, start, labels, moves) {
        Ok(built) => Ok(read_as(alloc, built, lts.divergence())?),
        // the parts of a system make a system, so only memory can be wanting
        Err(_) => Err(ShapeError::Memory),
    }
}

/// The system, whose cycles of moves with Tau are read in this way.
fn read_as(alloc: Global, built: Lts, divergence: Divergence) -> Result<Lts, Memory>
    requires { built.divergence ≡ Divergence.Refuse }
    ensures { IfOk result (IsReadAs divergence built) }
{
    match divergence {
        Divergence::Refuse => Ok(built),
        Divergence::Quiet => built.quieted(alloc),
    }
}

/// The moves of the system, and the loops.
fn completed(alloc: Global, lts: &Lts) -> Result<Moves, ShapeError>
    requires { length lts.now.moves ≤ MOST_MOVES }
    ensures ok { IfOk result (AreLoopsUpTo lts.now lts.now.inputs 0) }
    ensures err { IfErr result (RefusesAngelic lts.now) }
{
    let states = lts.states();
    let inputs = lts.inputs();
    let groups = groups_of(alloc, lts)?;
    let mut search = Search::new(alloc, states)?;
    let mut moves = copied(alloc, lts)?;
    'inputs: for input in 0..inputs {
        add_loops(alloc, lts, &groups, &mut search, &mut moves, input)?;
    }
    Ok(moves)
}

/// The moves of the system as a list that can grow.
fn copied(alloc: Global, lts: &Lts) -> Result<Moves, Memory>
    ensures { IfOk result (λ ms. ms ≡ lts.now.moves) }
{
    let mut copy = Moves::new(alloc);
    let moves = lts.moves();
    'moves: for m in moves {
        copy.push(*m)?;
    }
    Ok(copy)
}

/// Adds a loop with the input to each state that can't take it.
fn add_loops(
    alloc: Global,
    lts: &Lts,
    groups: &Groups,
    search: &mut Search,
    moves: &mut Moves,
    input: u32,
) -> Result<(), ShapeError>
    requires groups { AreGroups lts.now (length lts.now.moves) groups.now.last.items groups.now.before.items }
    requires states { search.old.states ≡ lts.now.states }
    requires input { input < lts.now.inputs }
    requires loops { AreLoopsUpTo lts.now input 0 moves.old }
    ensures states { search.new.states ≡ search.old.states }
    ensures loops { OnOk result (AreLoopsUpTo lts.now (input + 1) 0 moves.new) }
    ensures err { IfErr result (RefusesAngelic lts.now) }
{
    let states = lts.states();
    takers(lts, groups, search, input)?;
    let able = marks_of(alloc, search, states)?;
    'states: for state in 0..states {
        if !able[state as usize] {
            add_loop(moves, state, input)?;
        }
    }
    Ok(())
}

/// Adds one loop, where there is room for it.
fn add_loop(moves: &mut Moves, state: u32, label: u32) -> Result<(), ShapeError>
    ensures moves { OnOk result (moves.new ≡ moves.old ++ loop_with state label ∷ []) }
    ensures within { OnOk result (length moves.new ≤ MOST_MOVES) }
    ensures err { IfErr result (IsFull moves.old) }
{
    if moves.as_slice().len() >= MOST_MOVES as usize {
        return Err(ShapeError::TooManyMoves);
    }
    moves.push(Move {
        from: state,
        act: Act::Label(label),
        to: state,
    })?;
    Ok(())
}
