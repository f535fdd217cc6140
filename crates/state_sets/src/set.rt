//! Sets of states after traces as values of their own.
ghost use Rattle.std.specs.Prelude.{◌≡◌, ℕ, ◌<◌, ◌↔◌, List, [], ◌∷◌, ◌++◌, All, IsTrue, IfOk, IfSome};
ghost use Rattle.std.specs.List.Sorted.{IsStrictlyIncreasing};
ghost use Rattle.lts_base.specs.declared.item.Item.{Item as TheItem};
ghost use Rattle.lts_base.specs.System.{IsItemOf};
ghost use Rattle.lts_base.specs.After.{IsSetAfter, Shows, ShowsAfter, Allows};
ghost use Rattle.lts_base.specs.Conformance.{IsAllowed};
ghost use Rattle.lts_base.specs.Next.{IsNext};
ghost use Rattle.lts_base.specs.Finds.{IsSorted};

use crate::offers::{allowed_by, shown_by};
use crate::search::{FEW, Search};
use crate::step::{next_states, opening_states};
use lts_base::{Item, Lts, Memory, Mode};
use smallvec::SmallVec;
use std::alloc::Global;
use std::marker::Model;

/// A set of states, as the list of them in ascending order; one of few states takes no memory of its
/// own.
#[derive(Drop, Debug)]
pub struct StateSet {
    states: SmallVec<u32, FEW>,
}

impl Model for StateSet {
    ghost use Rattle.std.specs.Prelude.{ℕ, List};
    ghost use Rattle.std.specs.List.Sorted.{IsStrictlyIncreasing};

    ghost Value = { List ℕ };

    ghost view = { λ a. a.states.items };

    ghost invariant = { λ a. IsStrictlyIncreasing a.states.items };
}

impl StateSet {
    /// The states in ascending order.
    pub fn states(&self) -> &[u32]
        ensures value { result.now ≡ self.now }
        ensures rising { IsStrictlyIncreasing self.now }
    {
        self.states.as_slice()
    }
}

/// The set after the empty trace.
pub fn opening(alloc: Global, lts: &Lts) -> Result<StateSet, Memory>
    ensures opening { IfOk result (IsSetAfter lts.now []) }
    ensures within { IfOk result (All (λ (q : ℕ). q < lts.now.states)) }
{
    let count = lts.states();
    let mut search = Search::new(alloc, count)?;
    let set = opening_with(alloc, lts, &mut search)?;
    Ok(set)
}

/// The set after the empty trace. What the search held before is forgotten.
pub fn opening_with(alloc: Global, lts: &Lts, search: &mut Search) -> Result<StateSet, Memory>
    requires states { search.old.states ≡ lts.now.states }
    ensures states { search.new.states ≡ search.old.states }
    ensures opening { IfOk result (IsSetAfter lts.now []) }
    ensures within { IfOk result (All (λ (q : ℕ). q < lts.now.states)) }
{
    let states = opening_states(alloc, lts, search)?;
    Ok(StateSet {
        states: SmallVec::from_vec(states),
    })
}

/// The set of states that the item, and then moves with Tau, reach from the members; it may be
/// empty. Whoever steps often keeps a `Search` and calls `post_with`.
pub fn post(alloc: Global, lts: &Lts, set: &StateSet, item: Item) -> Result<StateSet, Memory>
    requires set { All (λ (q : ℕ). q < lts.now.states) set.now }
    requires item { IsItemOf lts.now item }
    ensures next { IfOk result (IsNext lts.now item set.now) }
    ensures after { IfOk result (λ t. (σ : List TheItem) → IsSetAfter lts.now σ set.now → IsSetAfter lts.now (σ ++ item ∷ []) t) }
    ensures within { IfOk result (All (λ (q : ℕ). q < lts.now.states)) }
{
    let count = lts.states();
    let mut search = Search::new(alloc, count)?;
    let next = post_with(alloc, lts, &mut search, set, item)?;
    Ok(next)
}

/// The same as `post`, with a search that the caller keeps. What it held before is forgotten.
pub fn post_with(
    alloc: Global,
    lts: &Lts,
    search: &mut Search,
    set: &StateSet,
    item: Item,
) -> Result<StateSet, Memory>
    requires states { search.old.states ≡ lts.now.states }
    requires set { All (λ (q : ℕ). q < lts.now.states) set.now }
    requires item { IsItemOf lts.now item }
    ensures states { search.new.states ≡ search.old.states }
    ensures next { IfOk result (IsNext lts.now item set.now) }
    ensures within { IfOk result (All (λ (q : ℕ). q < lts.now.states)) }
{
    let states = next_states(alloc, lts, search, set.states(), item)?;
    Ok(StateSet {
        states: SmallVec::from_vec(states),
    })
}

/// The set of the states that a search has found.
pub fn found_set(alloc: Global, search: &Search) -> Result<StateSet, Memory>
    ensures sorted { IfOk result (IsSorted search.now.found) }
    ensures within { IfOk result (All (λ (q : ℕ). q < search.now.states)) }
{
    let states = search.kept(alloc)?;
    Ok(StateSet { states })
}

/// The one state of a set that has no other.
pub fn only_state(set: &StateSet) -> Option<u32>
    ensures { IfSome result (λ q. set.now ≡ q ∷ []) }
{
    let states = set.states();
    if states.len() != 1 {
        return None;
    }
    Some(states[0])
}

/// Whether some member of the set gives the item; of an input none does.
pub fn shows(lts: &Lts, set: &StateSet, item: Item) -> bool
    requires set { All (λ (q : ℕ). q < lts.now.states) set.now }
    requires item { IsItemOf lts.now item }
    ensures set { IsTrue result ↔ Shows lts.now set.now item }
    ensures after { (σ : List TheItem) → IsSetAfter lts.now σ set.now → (IsTrue result ↔ ShowsAfter lts.now σ item) }
{
    shown_by(lts, set.states(), item)
}

/// Whether the set allows the item: it shows the output or `delta`; of an input, some member takes
/// it, and under uioco each stable member does.
pub fn allows(lts: &Lts, mode: Mode, set: &StateSet, item: Item) -> bool
    requires set { All (λ (q : ℕ). q < lts.now.states) set.now }
    requires item { IsItemOf lts.now item }
    ensures set { IsTrue result ↔ Allows mode lts.now set.now item }
    ensures after { (σ : _) → IsSetAfter lts.now σ set.now → IsAllowed mode lts.now σ → (IsTrue result ↔ IsAllowed mode lts.now (σ ++ item ∷ [])) }
{
    let _ = lts.states();
    allowed_by(lts, mode, set.states(), item)
}
