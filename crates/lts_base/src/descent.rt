//! A search in depth along internal moves that keeps the path from its root as blocks: states of a
//! block lead to each other, and each block leads to the next one (Gabow, "Path-based depth-first
//! search for strong and biconnected components", 2000).
ghost use Rattle.std.specs.Prelude.{◌≡◌, ◌≢◌, ℕ, ◌+◌, ◌<◌, ◌≤◌, [], ◌∷◌, ◌++◌, length, take, replicate, All, Contains, None, Some, false, true, set, MatchOption, OnOk, IfOk, ◌⊎◌, slice_index_or as get_or};
ghost use Rattle.lts_base.specs.System.{TauLeads};
ghost use Rattle.lts_base.specs.Descent.{Stands, IsOver, IsPending, IsLastBlock, NoneOpen, IsOpenTo, IsKept, AreKept, AreMarked, IsSource, IsFreshDescent};

use crate::action::Act;
use crate::memory::Memory;
use crate::system::Lts;
use std::alloc::Global;

/// A block of the path.
#[derive(Clone, Copy)]
pub(crate) struct Block {
    /// The place of its first state on the path.
    start: usize,
    /// How many states were to be looked at when it began.
    base: usize,
}

/// How far the descent is.
#[derive(Drop)]
pub(crate) struct Descent {
    /// For each state that the descent has come to, its place on the path. Where the path has no
    /// longer this state at this place, the state is done.
    places: Vec<Option<usize>>,
    path: Vec<u32>,
    blocks: Vec<Block>,
    /// The states that are to be looked at, those of later blocks at the end.
    pending: Vec<u32>,
    /// For each state, whether moves with Tau lead back to it, as far as that is known.
    pub(crate) flags: Vec<bool>,
}

impl Descent {
    /// The descent that has come to no state.
    pub(crate) fn new(alloc: Global, states: u32) -> Result<Descent, Memory>
        ensures { IfOk result (IsFreshDescent states) }
    {
        let places = vec![in alloc; None; states as usize]?;
        let flags = vec![in alloc; false; states as usize]?;
        Ok(Descent {
            places,
            path: Vec::new(alloc),
            blocks: Vec::new(alloc),
            pending: Vec::new(alloc),
            flags,
        })
    }
}

/// Walks on from the state, where the descent hasn't come to it, until all that it leads to is done.
pub(crate) fn search_from(lts: &Lts, descent: &mut Descent, root: u32) -> Result<(), Memory>
    requires root { root < lts.now.states }
    requires blocks { descent.old.blocks.items ≡ [] }
    requires descent { Stands lts.now NoneOpen descent.old }
    ensures blocks { OnOk result (descent.new.blocks.items ≡ []) }
    ensures descent { OnOk result (Stands lts.now NoneOpen descent.new) }
    ensures kept { OnOk result (IsKept descent.old.places.items descent.new.places.items) }
    ensures seen { OnOk result (get_or descent.new.places.items root None ≢ None) }
{
    if descent.places[root as usize].is_some() {
        return Ok(());
    }
    enter(lts, descent, root)?;
    'steps: while let Some(state) = next_new(lts, descent) {
        enter(lts, descent, state)?;
    }
    Ok(())
}

/// Goes to a state that the descent hasn't come to.
fn enter(lts: &Lts, descent: &mut Descent, state: u32) -> Result<(), Memory>
    requires state { state < lts.now.states }
    requires new { get_or descent.old.places.items state None ≡ None }
    requires leads { (i : ℕ) → i < length descent.old.path.items → TauLeads lts.now (get_or descent.old.path.items i 0) state }
    requires descent { Stands lts.now (IsOpenTo state) descent.old }
    ensures descent { OnOk result (Stands lts.now NoneOpen descent.new) }
    ensures places { OnOk result (descent.new.places.items ≡ set descent.old.places.items state (Some (length descent.old.path.items))) }
{
    let moves = lts.moves_of(state);
    let start = descent.path.len();
    descent.blocks.push(Block {
        start,
        base: descent.pending.len(),
    })?;
    descent.path.push(state)?;
    descent.places[state as usize] = Some(start);
    'moves: for m in moves {
        match m.act {
            Act::Tau => descent.pending.push(m.to)?,
            Act::Label(_) => {}
        }
    }
    Ok(())
}

/// Looks at states until the descent hasn't come to one, and gives that one.
fn next_new(lts: &Lts, descent: &mut Descent) -> Option<u32>
    requires { Stands lts.now NoneOpen descent.old }
    ensures places { descent.new.places.items ≡ descent.old.places.items }
    ensures found { MatchOption result (IsOver lts.now descent.new) (IsPending lts.now descent.new) }
{
    let _states = lts.states();
    'looks: while let Some(block) = last(&descent.blocks) {
        if descent.pending.len() <= block.base {
            close(lts, descent, block.start);
            continue;
        }
        let Some(state) = descent.pending.pop() else {
            return None;
        };
        match descent.places[state as usize] {
            None => return Some(state),
            Some(place) => meet(lts, descent, state, place),
        }
    }
    None
}

/// The last block.
fn last(blocks: &[Block]) -> Option<Block>
    ensures { MatchOption result (blocks.now ≡ []) (λ b. (front : _) × (blocks.now ≡ front ++ b ∷ [])) }
{
    match blocks.last() {
        Some(block) => Some(*block),
        None => None,
    }
}

/// Takes the last block from the path: all that its states lead to has been looked at.
fn close(lts: &Lts, descent: &mut Descent, start: usize)
    requires block { IsLastBlock descent.old start }
    requires descent { Stands lts.now NoneOpen descent.old }
    ensures descent { Stands lts.now NoneOpen descent.new }
    ensures places { descent.new.places.items ≡ descent.old.places.items }
    ensures pending { descent.new.pending.items ≡ descent.old.pending.items }
    ensures blocks { length descent.new.blocks.items < length descent.old.blocks.items }
{
    let _states = lts.states();
    if descent.path.len() - start > 1 {
        mark(&mut descent.flags, &descent.path[start..]);
    }
    descent.path.truncate(start);
    descent.blocks.pop();
}

/// Sets the flags of these states.
fn mark(flags: &mut Vec<bool>, states: &[u32])
    requires { All (λ p. p < length flags.old.items) states.now }
    ensures { AreMarked states.now flags.old.items flags.new.items }
{
    'states: for state in states {
        flags[*state as usize] = true;
    }
}

/// A move with Tau from the last block leads to the state, which once stood at the place. If it
/// still does, all from its block on are one block.
fn meet(lts: &Lts, descent: &mut Descent, state: u32, place: usize)
    requires state { state < lts.now.states }
    requires place { get_or descent.old.places.items state None ≡ Some place }
    requires source { (i : ℕ) × IsSource lts.now descent.old.path.items descent.old.blocks.items (length descent.old.pending.items) state i }
    requires base { All (λ b. b.base ≤ length descent.old.pending.items) descent.old.blocks.items }
    requires descent { Stands lts.now (IsOpenTo state) descent.old }
    ensures descent { Stands lts.now NoneOpen descent.new }
    ensures places { descent.new.places.items ≡ descent.old.places.items }
    ensures pending { descent.new.pending.items ≡ descent.old.pending.items }
    ensures blocks { length descent.new.blocks.items ≤ length descent.old.blocks.items }
{
    let _states = lts.states();
    if !stands(&descent.path, state, place) {
        return;
    }
    let count = kept(&descent.blocks, place);
    descent.flags[state as usize] = true;
    descent.blocks.truncate(count);
}

/// Whether the path has the state at the place.
fn stands(path: &[u32], state: u32, place: usize) -> bool
    ensures yes { result ≡ true → (place < length path.now) × (get_or path.now place 0 ≡ state) }
    ensures no { result ≡ false → place < length path.now → get_or path.now place 0 ≢ state }
{
    match path.get(place) {
        Some(found) => *found == state,
        None => false,
    }
}

/// How many blocks don't start after the place.
fn kept(blocks: &[Block], place: usize) -> usize
    requires { (j k : ℕ) (d : _) → j < k → k < length blocks.now → (get_or blocks.now j d).start ≤ (get_or blocks.now k d).start }
    ensures { AreKept blocks.now place result }
{
    let mut count = blocks.len();
    'counted: while count > 0 {
        if blocks[count - 1].start <= place {
            return count;
        }
        count -= 1;
    }
    count
}
