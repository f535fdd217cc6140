//! The pairs of sets that a search has found, each with the pair and the item that led to it.
ghost use Rattle.std.specs.Prelude.{◌≡◌, ℕ, ◌<◌, ◌↔◌, List, [], ◌∷◌, ◌++◌, length, IsTrue, IfOk, OnOk, OnErr, slice_index_or as get_or};
ghost use Rattle.lts_base.specs.declared.item.Item.{Item as TheItem};
ghost use Rattle.lts_base.specs.Reached.{trace_at};
ghost use Rattle.conf_decide.specs.declared.table.Found.{Found as TheFound};
ghost use Rattle.conf_decide.specs.Table.{no_found, HasPair, key_of, AreEarlier, AreEdges};

use lts_base::{Item, Memory, Trace};
use std::alloc::{AllocError, Global};
use std::collections::HashSet;
use std::marker::Model;

/// A pair of nodes, one of each walk, and how it was found.
#[derive(Clone, Copy, Drop)]
pub struct Found {
    /// The implementation's node.
    pub left: u32,
    /// The specification's node.
    pub right: u32,
    /// The number of the pair from which it was found; of the opening pair, 0.
    pub from: u32,
    /// The item that led to it; of the opening pair, `delta`.
    pub item: Item,
    /// The length of its least trace.
    pub depth: u32,
}

/// The pairs in the order in which they were found.
#[derive(Drop)]
pub struct Table {
    found: Vec<Found>,
    // the two nodes of each pair as one number, so that a pair is looked up without a scan
    keys: HashSet<u64>,
}

impl Model for Table {
    ghost use Rattle.std.specs.Prelude.{List};
    ghost use Rattle.conf_decide.specs.declared.table.Found.{Found};
    ghost use Rattle.conf_decide.specs.Table.{AreKeys};

    ghost Value = { List Found };

    ghost view = { λ t. t.found.items };

    ghost invariant = { λ t. AreKeys t.found.items t.keys.keys };
}

fn key_of(left: u32, right: u32) -> u64
    ensures key { result ≡ key_of left right }
    ensures small { right < 4294967296 }
{
    left as u64 * 4_294_967_296 + right as u64
}

impl Table {
    /// No pairs.
    pub fn new(alloc: Global) -> Table
        ensures { result ≡ [] }
    {
        Table {
            found: Vec::new(alloc),
            keys: HashSet::new(alloc),
        }
    }

    /// How many pairs there are.
    pub fn len(&self) -> usize
        ensures { result ≡ length self.now }
    {
        self.found.len()
    }

    /// The pair with this number.
    pub fn at(&self, number: usize) -> Found
        requires { number < length self.now }
        ensures { result ≡ get_or self.now number no_found }
    {
        self.found[number]
    }

    /// Whether the two nodes were found together.
    pub fn has(&self, left: u32, right: u32) -> bool
        ensures { IsTrue result ↔ HasPair self.now left right }
    {
        self.keys.contains(&key_of(left, right))
    }

    /// Appends a pair; where memory runs out the table is as before.
    pub fn push(&mut self, found: Found) -> Result<(), Memory>
        ensures ok { OnOk result (self.new ≡ self.old ++ found ∷ []) }
        ensures err { OnErr result (self.new ≡ self.old) }
    {
        self.found.push(found)?;
        if self.keys.insert(key_of(found.left, found.right)).is_err() {
            let _ = self.found.pop();
            return Err(Memory);
        }
        Ok(())
    }

    /// The trace that leads to the pair with this number, read back from pair to pair.
    pub fn trace_of(&self, alloc: Global, number: usize) -> Result<Trace, Memory>
        requires number { number < length self.now }
        requires earlier { AreEarlier self.now }
        ensures { IfOk result (λ trace. (traces : List (List TheItem)) → AreEdges self.now traces → trace ≡ trace_at traces number) }
    {
        let mut items = Vec::new(alloc);
        let mut at = number;
        while at > 0 {
            let found = self.found[at];
            items.push(found.item)?;
            at = found.from as usize;
        }
        items.reverse();
        Ok(Trace::from_vec(items))
    }
}
