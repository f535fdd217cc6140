//! The lists and pairs of a certificate in few pieces of memory.
ghost use Rattle.std.specs.Prelude.{◌≡◌, ℕ, ◌+◌, ◌^◌, ◌<◌, [], ◌∷◌, ◌++◌, length, IfOk, OnOk, OnErr, slice_index_or as get_or};
ghost use Rattle.cert_text.specs.Adding.{no_relation};

use lts_base::{Listed, Memory, Pairs, Relation, StateList};
use std::alloc::Global;
use std::marker::Model;

/// Lists of states that grow at their end and hold all states one after the other, so that no list
/// has memory of its own. The lists have fewer than 2^32 states together.
#[derive(Drop, Debug)]
pub struct PackedLists {
    states: Vec<u32>,
    // where each list ends in `states`, which is where the next one starts
    ends: Vec<u32>,
}

impl Model for PackedLists {
    ghost use Rattle.std.specs.Prelude.{ℕ, List, length};
    ghost use Rattle.lts_base.specs.Packed.{pieces, AreEnds};

    ghost Value = { List (List ℕ) };

    ghost view = { λ a. pieces a.states.items 0 a.ends.items };

    ghost invariant = { λ a. AreEnds 0 (length a.states.items) a.ends.items };
}

impl PackedLists {
    /// The empty list; later growth takes its memory from `alloc`.
    pub fn new(alloc: Global) -> PackedLists
        ensures { result ≡ [] }
    {
        PackedLists {
            states: Vec::new(alloc),
            ends: Vec::new(alloc),
        }
    }

    /// How many lists there are.
    pub fn len(&self) -> usize
        ensures { result ≡ length self.now }
    {
        self.ends.len()
    }

    /// The list at a place, from 0; the empty one where there is none.
    pub fn get(&self, place: usize) -> &[u32]
        ensures { result.now ≡ get_or self.now place [] }
    {
        if place >= self.ends.len() {
            return &[];
        }
        let end = self.ends[place] as usize;
        if place == 0 {
            return &self.states[..end];
        }
        let start = self.ends[place - 1] as usize;
        &self.states[start..end]
    }

    /// Appends one list; where memory runs out, or the lists would have 2^32 states or more, all is
    /// as before.
    pub fn push(&mut self, list: &[u32]) -> Result<(), Memory>
        ensures ok { OnOk result (self.new ≡ self.old ++ list.now ∷ []) }
        ensures err { OnErr result (self.new ≡ self.old) }
    {
        let Ok(end) = u32::try_from(self.states.len() + list.len()) else {
            return Err(Memory);
        };
        self.ends.reserve(1)?;
        self.states.extend_from_slice(list)?;
        self.ends.push_reserved(end);
        Ok(())
    }

    /// The packed lists of these.
    fn of(alloc: Global, lists: &[StateList]) -> Result<PackedLists, Memory>
        ensures { IfOk result (λ p. p ≡ lists.now) }
    {
        let mut packed = PackedLists::new(alloc);
        'lists: for list in lists {
            packed.push(list.as_slice())?;
        }
        Ok(packed)
    }
}

/// A relation whose lists are packed. Contracts see it as the relation that it is.
#[derive(Drop, Debug)]
pub struct PackedRelation {
    left: PackedLists,
    right: PackedLists,
    pairs: Pairs,
}

impl Model for PackedRelation {
    ghost use Rattle.lts_base.specs.declared.relation.Relation.{Relation as TheRelation};

    ghost Value = { TheRelation };

    ghost view = { λ a. record { left = a.left; right = a.right; pairs = a.pairs } };
}

impl PackedRelation {
    /// A relation without lists.
    pub fn new(alloc: Global) -> PackedRelation
        ensures { result ≡ no_relation }
    {
        PackedRelation {
            left: PackedLists::new(alloc),
            right: PackedLists::new(alloc),
            pairs: Listed::new(alloc),
        }
    }

    /// The same relation with its lists packed.
    pub fn of(alloc: Global, relation: Relation) -> Result<PackedRelation, Memory>
        ensures { IfOk result (λ p. p ≡ relation) }
    {
        let left = PackedLists::of(alloc, relation.left.as_slice())?;
        let right = PackedLists::of(alloc, relation.right.as_slice())?;
        Ok(PackedRelation {
            left,
            right,
            pairs: relation.pairs,
        })
    }

    /// The lists of implementation states.
    pub fn left(&self) -> &PackedLists
        ensures { result.now ≡ self.now.left }
    {
        &self.left
    }

    /// The lists of specification states.
    pub fn right(&self) -> &PackedLists
        ensures { result.now ≡ self.now.right }
    {
        &self.right
    }

    /// The pairs of list numbers.
    pub fn pairs(&self) -> &[(u32, u32)]
        ensures { result.now ≡ self.now.pairs }
    {
        self.pairs.as_slice()
    }

    /// Appends a list of implementation states; where memory runs out all is as before.
    pub fn push_left(&mut self, list: &[u32]) -> Result<(), Memory>
        ensures ok { OnOk result (self.new ≡ record { left = self.old.left ++ list.now ∷ []; right = self.old.right; pairs = self.old.pairs }) }
        ensures err { OnErr result (self.new ≡ self.old) }
    {
        self.left.push(list)
    }

    /// Appends a list of specification states; where memory runs out all is as before.
    pub fn push_right(&mut self, list: &[u32]) -> Result<(), Memory>
        ensures ok { OnOk result (self.new ≡ record { left = self.old.left; right = self.old.right ++ list.now ∷ []; pairs = self.old.pairs }) }
        ensures err { OnErr result (self.new ≡ self.old) }
    {
        self.right.push(list)
    }

    /// Appends a pair of list numbers; where memory runs out all is as before.
    pub fn push_pair(&mut self, pair: (u32, u32)) -> Result<(), Memory>
        ensures ok { OnOk result (self.new ≡ record { left = self.old.left; right = self.old.right; pairs = self.old.pairs ++ pair ∷ [] }) }
        ensures err { OnErr result (self.new ≡ self.old) }
    {
        self.pairs.push(pair)
    }
}
