//! The sets of a walk, each kept once: one step from one of them to another.
ghost use Rattle.lts_base.specs.declared.limits.TheConstants.{MOST_MEMBERS};
ghost use Rattle.std.specs.Prelude.{◌≡◌, ℕ, ◌+◌, ◌<◌, ◌≤◌, ◌↔◌, [], length, All, Contains, IsTrue, OnOk, OnErr, IfOk, IfErr, IfSome};
ghost use Rattle.std.specs.Option.{option_map};
ghost use Rattle.lts_base.specs.System.{IsItemOf, label_count};
ghost use Rattle.lts_base.specs.After.{IsSetAfter, Shows, Allows};
ghost use Rattle.lts_base.specs.Next.{IsNext};
ghost use Rattle.lts_base.specs.Reached.{total_members, with_new};
ghost use Rattle.state_sets.specs.Finds.{IsLeastFrom, IsTakenIn};
ghost use Rattle.state_sets.specs.Rows.{IsRowOf};
ghost use Rattle.walk_core.specs.Interned.{IsNextOf, with_alone};
ghost use Rattle.walk_core.specs.Walked.{IsFresh, IsSetOf, IsWalk, Grows, IsStep, set_at};
ghost use Rattle.walk_core.specs.Refused.{Refuses, RefusesOpening, RefusesSet, KeepsAccount};

use crate::keyed::Keyed;
use crate::marks::Marks;
use crate::node::Node;
use crate::walk::WalkError;
use indexmap::IndexSet;
use lts_base::{Item, Lts, Memory, Mode};
use state_sets::{
    Search, StateSet, Taus, allowed_by, find_next, found_set, label_from, only_state, opening_with,
    row_allows, row_label_from, row_shows, shown_by,
};
use std::alloc::Global;
use std::marker::Model;

/// The sets found so far, in the order in which they were found, over a borrowed system. A set is
/// found again by its states. A step costs in proportion to the moves that it looks at and the
/// states that it finds.
#[derive(Drop)]
pub(crate) struct Interned<'a> {
    alloc: Global,
    lts: &'a Lts,
    most: u64,
    sets: IndexSet<StateSet, Keyed>,
    members: u64,
    search: Search,
    // whether a move with Tau leaves each state
    taus: Taus,
    // for each state one above the number of the set that has it alone; 0 where none is known
    alone: Vec<u32>,
    marks: Marks,
}

/// What a step leads to.
#[derive(Drop)]
enum Next {
    /// A set that the walk has, by its number.
    Known(u32),
    /// A set that was made, and may be there.
    Made(StateSet),
}

impl<'a> Model for Interned<'a> {
    ghost use Rattle.walk_core.specs.Walked.{Walked};
    ghost use Rattle.walk_core.specs.Interned.{IsInterned};
    ghost use Rattle.walk_core.specs.Marked.{AreMarksOf};

    ghost Value = { Walked };

    ghost view = { λ a. record { system = a.lts.now; limit = a.most; sets = a.sets.keys } };

    ghost invariant = { λ a. IsInterned (record { system = a.lts.now; limit = a.most; sets = a.sets.keys }) a.members a.search.states a.alone.items a.taus × AreMarksOf a.lts.now a.sets.keys a.marks };
}

impl<'a> Interned<'a> {
    /// The opening set alone, with at most `most` members in all sets together.
    pub(crate) fn new(alloc: Global, lts: &'a Lts, most: u64) -> Result<Interned<'a>, WalkError>
        requires { most ≤ MOST_MEMBERS }
        ensures fresh { IfOk result IsFresh }
        ensures system { IfOk result (λ w. w.system ≡ lts.now) }
        ensures limit { IfOk result (λ w. w.limit ≡ most) }
        ensures err { IfErr result (RefusesOpening lts.now most) }
    {
        let count = lts.states();
        let mut search = Search::new(alloc, count)?;
        let taus = Taus::new(alloc, lts)?;
        let set = opening_with(alloc, lts, &mut search)?;
        let members = set.states().len() as u64;
        if members > most {
            return Err(WalkError::Full { reached: members });
        }
        let mut marks = Marks::new(alloc, lts)?;
        marks.keep(lts, set.states(), 0);
        let mut sets = IndexSet::with_hasher(alloc, Keyed::new(lts));
        add(&mut sets, set)?;
        let Ok(alone) = vec![in alloc; 0; count as usize] else {
            return Err(WalkError::Memory);
        };
        Ok(Interned {
            alloc,
            lts,
            most,
            sets,
            members,
            search,
            taus,
            alone,
            marks,
        })
    }

    /// The next set. Where it isn't known at once, it isn't kept yet.
    fn next_of(&mut self, node: Node, item: Item) -> Result<Next, Memory>
        requires node { node.0 < length self.old.sets }
        requires item { IsItemOf self.old.system item }
        ensures walk { IsWalk self.new }
        ensures same { self.new ≡ self.old }
        ensures next { IfOk result (IsNextOf self.old node.0 item) }
    {
        let set = &self.sets.as_slice()[node.0 as usize];
        find_next(
            self.lts,
            Some(&self.taus),
            &mut self.search,
            set.states(),
            item,
        )?;
        if self.search.len() == 1 {
            let known = self.alone[self.search.at(0) as usize];
            if known > 0 {
                return Ok(Next::Known(known - 1));
            }
        }
        let next = found_set(self.alloc, &self.search)?;
        Ok(Next::Made(next))
    }

    /// The number of the set, which is added at the end if it isn't there. It is hashed once.
    fn keep(&mut self, set: StateSet) -> Result<u32, WalkError>
        requires { IsSetOf self.old.system set }
        ensures walk { IsWalk self.new }
        ensures system { self.new.system ≡ self.old.system }
        ensures limit { self.new.limit ≡ self.old.limit }
        ensures sets { OnOk result (self.new.sets ≡ with_new self.old.sets set) }
        ensures number { IfOk result (λ n. (n < length self.new.sets) × (set_at self.new.sets n ≡ set)) }
        ensures err { IfErr result (RefusesSet self.old set) }
        ensures same { OnErr result (self.new ≡ self.old) }
    {
        let reached = self.members + set.states().len() as u64;
        if reached > self.most {
            if let Some(place) = self.sets.get_index_of(&set) {
                return Ok(place as u32);
            }
            return Err(WalkError::Full { reached });
        }
        let only = only_state(&set);
        let count = self.sets.len();
        let place = add(&mut self.sets, set)?;
        if place < count {
            return Ok(place as u32);
        }
        self.members = reached;
        note(&mut self.alone, only, place as u32);
        let kept = &self.sets.as_slice()[place];
        self.marks.keep(self.lts, kept.states(), place);
        Ok(place as u32)
    }

    /// The node of the opening set.
    pub(crate) fn begin(&self) -> Node
        ensures node { result.0 < length self.now.sets }
        ensures opening { IsSetAfter self.now.system [] (set_at self.now.sets result.0) }
        ensures walk { IsWalk self.now }
    {
        let _ = &self.sets;
        Node(0)
    }

    /// One step by an item: the node of the set that it leads to, or None where that set is empty.
    pub(crate) fn step(&mut self, node: Node, item: Item) -> Result<Option<Node>, WalkError>
        requires node { node.0 < length self.old.sets }
        requires item { IsItemOf self.old.system item }
        ensures walk { IsWalk self.new }
        ensures grows { Grows self.old self.new }
        ensures ok { IfOk result (λ to. IsStep self.old self.new node.0 item (option_map (λ (n : _). n.0) to)) }
        ensures err { IfErr result (λ e. Refuses self.old node.0 item e) }
        ensures same { OnErr result (self.new ≡ self.old) }
        ensures account { KeepsAccount self.old self.new node.0 item result }
    {
        let next = match self.next_of(node, item)? {
            Next::Known(number) => return Ok(Some(Node(number))),
            Next::Made(next) => next,
        };
        if next.states().is_empty() {
            return Ok(None);
        }
        let number = self.keep(next)?;
        Ok(Some(Node(number)))
    }

    /// Whether the node's set allows the item.
    pub(crate) fn allows(&self, node: Node, mode: Mode, item: Item) -> bool
        requires node { node.0 < length self.now.sets }
        requires item { IsItemOf self.now.system item }
        ensures { IsTrue result ↔ Allows mode self.now.system (set_at self.now.sets node.0) item }
    {
        if let Some(row) = self.marks.row(node.0 as usize) {
            return row_allows(self.lts, mode, self.states(node), row, item);
        }
        allowed_by(self.lts, mode, self.states(node), item)
    }

    /// Whether the node's set shows the item.
    pub(crate) fn shows(&self, node: Node, item: Item) -> bool
        requires node { node.0 < length self.now.sets }
        requires item { IsItemOf self.now.system item }
        ensures { IsTrue result ↔ Shows self.now.system (set_at self.now.sets node.0) item }
    {
        if let Some(row) = self.marks.row(node.0 as usize) {
            return row_shows(self.lts, row, item);
        }
        shown_by(self.lts, self.states(node), item)
    }

    /// The least label from `from` on with which a move leaves some member of the node's set; where
    /// there is none, the number of labels.
    pub(crate) fn label_from(&self, node: Node, from: u32) -> u32
        requires node { node.0 < length self.now.sets }
        requires from { from ≤ label_count self.now.system }
        ensures { IsLeastFrom (IsTakenIn self.now.system (set_at self.now.sets node.0)) from (label_count self.now.system) result }
    {
        if let Some(row) = self.marks.row(node.0 as usize) {
            return row_label_from(self.lts, row, from);
        }
        label_from(self.lts, self.states(node), from)
    }

    /// What the node's set has, as a row of bits, where it is kept.
    pub(crate) fn row(&self, node: Node) -> Option<&[u64]>
        requires { node.0 < length self.now.sets }
        ensures { IfSome result (λ r. IsRowOf self.now.system (set_at self.now.sets node.0) r.now) }
    {
        let row = self.marks.row(node.0 as usize)?;
        Some(row)
    }

    /// The states of the node's set, in ascending order.
    pub(crate) fn states(&self, node: Node) -> &[u32]
        requires { node.0 < length self.now.sets }
        ensures { result.now ≡ set_at self.now.sets node.0 }
    {
        self.sets.as_slice()[node.0 as usize].states()
    }

    /// The number of members of all sets together.
    pub(crate) fn members(&self) -> u64
        ensures { result ≡ total_members self.now.sets }
    {
        self.members
    }
}

/// Keeps the number of a set that has one state alone.
fn note(alone: &mut Vec<u32>, only: Option<u32>, number: u32)
    requires only { IfSome only (λ q. q < length alone.old.items) }
    requires number { number < MOST_MEMBERS }
    ensures { alone.new.items ≡ with_alone alone.old.items only number }
{
    if let Some(state) = only {
        alone[state as usize] = number + 1;
    }
}

fn add(sets: &mut IndexSet<StateSet, Keyed>, set: StateSet) -> Result<usize, Memory>
    ensures ok { IfOk result (λ place. (sets.new.keys ≡ with_new sets.old.keys set) × (place < length sets.new.keys) × (set_at sets.new.keys place ≡ set)) }
    ensures err { OnErr result (sets.new.keys ≡ sets.old.keys) }
{
    let (place, _) = sets.insert_full(set)?;
    Ok(place)
}
