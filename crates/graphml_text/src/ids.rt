//! Sets of ids.
ghost use Rattle.std.specs.Prelude.{◌≡◌, [], length, option_map, OnOk, OnErr};
ghost use Rattle.graphml_text.specs.Element as spec;
ghost use Rattle.graphml_text.specs.MachineValues.{ids_of};

use crate::places::first_byte;
use graphml_scan::{Keyed, is_same};
use indexmap::IndexSet;
use lts_base::Memory;
use std::alloc::Global;
use std::marker::Model;

/// So many ids are compared one by one, which is faster than a hash.
const FEW_IDS: usize = 4;

/// How far the number in an id may be ahead of the count of ids before it.
const NEAR_IDS: usize = 16;

/// Distinct ids in the order in which they were first added. Contracts see their texts.
#[derive(Drop)]
pub(crate) struct Ids<'a> {
    alloc: Global,
    set: IndexSet<Vec<u8>, Keyed>,
    content: &'a [u8],
    // whether the hash depends on the content, of which a digest takes time
    is_keyed: bool,
}

impl<'a> Model for Ids<'a> {
    ghost use Rattle.std.specs.Prelude.{ℕ, List};

    ghost Value = { List (List ℕ) };

    ghost use Rattle.graphml_text.specs.MachineValues.{ids_of};

    ghost view = { λ a. ids_of a.set.keys };
}

impl<'a> Ids<'a> {
    /// No ids of this content, which takes no memory.
    pub(crate) fn new(alloc: Global, content: &'a [u8]) -> Ids<'a>
        ensures { result ≡ [] }
    {
        Ids {
            alloc,
            set: IndexSet::with_hasher(alloc, Keyed::fixed()),
            content,
            is_keyed: false,
        }
    }

    /// How many ids there are.
    pub(crate) fn len(&self) -> usize
        ensures { result ≡ length self.now }
    {
        self.set.len()
    }

    /// The set of the ids.
    pub(crate) fn set(&self) -> &IndexSet<Vec<u8>, Keyed>
        ensures { ids_of result.now.keys ≡ self.now }
    {
        &self.set
    }

    /// Whether there is a text, and it is among the ids.
    pub(crate) fn has(&self, found: Option<&[u8]>) -> bool
        ensures { result ≡ spec.has_value self.now (option_map (λ text. text.now) found.entry) }
    {
        has_id(&self.set, found)
    }

    /// Adds an id, unless it is there.
    pub(crate) fn insert(&mut self, id: Vec<u8>) -> Result<(), Memory>
        ensures ok { OnOk result (self.new ≡ spec.with_id self.old id.items) }
        ensures err { OnErr result (self.new ≡ self.old) }
    {
        self.prepare(id.as_slice())?;
        insert_id(&mut self.set, id)?;
        Ok(())
    }

    /// Gives the set a hash that no file can aim at, before an id is added that may be aimed at one.
    fn prepare(&mut self, id: &[u8]) -> Result<(), Memory>
        ensures { self.new ≡ self.old }
    {
        if self.is_keyed {
            return Ok(());
        }
        if self.set.len() < FEW_IDS {
            return Ok(());
        }
        // a file can't choose among such ids, so that a fixed hash serves them
        if is_next(first_byte(&self.set), self.set.len(), id) {
            return Ok(());
        }
        hash_by(self.alloc, &mut self.set, Keyed::new(self.content))?;
        self.is_keyed = true;
        Ok(())
    }
}

/// The number of these digits.
fn value_of(digits: &[u8]) -> Option<usize> {
    let mut value: usize = 0;
    for digit in digits {
        if !digit.is_ascii_digit() {
            return None;
        }
        value = value
            .saturating_mul(10)
            .saturating_add((*digit - b'0') as usize);
    }
    Some(value)
}

/// Whether the id is this byte and a number that is about the count of the ids before it.
fn is_next(first: u8, count: usize, id: &[u8]) -> bool {
    let [front, digits @ ..] = id else {
        return false;
    };
    if *front != first {
        return false;
    }
    // zeros in front would give a number more ids
    if digits.starts_with(b"0") && digits.len() > 1 {
        return false;
    }
    match value_of(digits) {
        Some(value) => value <= count.saturating_add(NEAR_IDS),
        None => false,
    }
}

/// Makes the set anew with these hashers; where memory runs out nothing changes.
fn hash_by(alloc: Global, ids: &mut IndexSet<Vec<u8>, Keyed>, keyed: Keyed) -> Result<(), Memory>
    ensures { ids.new.keys ≡ ids.old.keys }
{
    let mut made = IndexSet::with_capacity_and_hasher(alloc, ids.len(), keyed)?;
    made.append(ids)?;
    *ids = made;
    Ok(())
}

/// Whether the text is among a few ids.
fn is_among(ids: &[Vec<u8>], id: &[u8]) -> bool
    ensures { result ≡ spec.has (ids_of ids.now) id.now }
{
    for known in ids {
        if is_same(id, known.as_slice()) {
            return true;
        }
    }
    false
}

/// Whether the text is among the ids.
fn has_text(ids: &IndexSet<Vec<u8>, Keyed>, id: &[u8]) -> bool
    ensures { result ≡ spec.has (ids_of ids.now.keys) id.now }
{
    if ids.len() <= FEW_IDS {
        return is_among(ids.as_slice(), id);
    }
    ids.get_index_of(id).is_some()
}

/// Whether there is a text, and it is among the ids.
fn has_id(ids: &IndexSet<Vec<u8>, Keyed>, found: Option<&[u8]>) -> bool
    ensures { result ≡ spec.has_value (ids_of ids.now.keys) (option_map (λ text. text.now) found.entry) }
{
    match found {
        None => false,
        Some(id) => has_text(ids, id),
    }
}

/// Adds an id, unless it is there.
fn insert_id(ids: &mut IndexSet<Vec<u8>, Keyed>, id: Vec<u8>) -> Result<(), Memory>
    ensures ok { OnOk result (ids_of ids.new.keys ≡ spec.with_id (ids_of ids.old.keys) id.items) }
    ensures err { OnErr result (ids.new.keys ≡ ids.old.keys) }
{
    ids.insert_full(id)?;
    Ok(())
}
