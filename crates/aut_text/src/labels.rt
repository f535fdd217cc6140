//! The labels of the moves read so far, each found by its text.
ghost use Rattle.std.specs.Prelude.{◌≡◌, ◌^◌, ◌<◌, [], ◌∷◌, ◌++◌, length, IfOk, IfSome, IfNone, IsTrue, OnOk, OnErr};
ghost use Rattle.lts_base.specs.Alphabet.{IsLabel};
ghost use Rattle.aut_text.specs.Parts.{AreTexts, IsAt, Lacks};

use lts_base::{Memory, Text, Texts};
use std::alloc::Global;
use std::collections::BTreeMap;
use std::marker::Model;

/// How many places are kept of labels that were asked for.
const SLOTS: usize = 16_384;

/// An odd number whose products have well mixed first bits.
const SPREAD: u64 = 0x9e37_79b9_7f4a_7c15;

/// Distinct labels in the order in which they were first asked for.
#[derive(Drop)]
pub struct LabelTable {
    alloc: Global,
    texts: Vec<Text>,
    // an order and no hash, since a file could have labels that share one
    places: BTreeMap<Vec<u8>, u32>,
    // the place of a label that was asked for, for each slot; each is compared before it is used
    recent: Vec<u32>,
}

impl Model for LabelTable {
    ghost use Rattle.std.specs.Prelude.{ℕ, List, map};
    ghost use Rattle.aut_text.specs.Parts.{AreTexts, ArePlaces, texts_of};

    ghost Value = { List (List ℕ) };

    ghost view = { λ a. a.texts.items };

    ghost invariant = { λ a. AreTexts a.texts.items × ArePlaces (texts_of (λ v. v.items) a.places.entries) a.texts.items };
}

impl LabelTable {
    /// The empty table, which takes no memory.
    pub fn new(alloc: Global) -> LabelTable
        ensures { result ≡ [] }
    {
        LabelTable {
            alloc,
            texts: Vec::new(alloc),
            places: BTreeMap::new(alloc),
            recent: Vec::new(alloc),
        }
    }

    /// The place of the text, where it is in the table.
    #[inline(always)]
    pub fn known(&mut self, text: &[u8]) -> Option<u32>
        requires few { length self.old < 2 ^ 32 }
        ensures found { IfSome result (IsAt self.old text.now) }
        ensures none { IfNone result (Lacks self.old text.now) }
        ensures same { self.new ≡ self.old }
    {
        let slot = slot_of(text);
        if let Some(place) = self.recent.get(slot).copied() {
            if self.stands_at(place, text) {
                return Some(place);
            }
        }
        let Some(place) = self.place_of(text) else {
            return None;
        };
        self.note(slot, place);
        Some(place)
    }

    /// Whether the text stands at this place.
    fn stands_at(&self, place: u32, text: &[u8]) -> bool
        ensures { IsTrue result → IsAt self.now text.now place }
    {
        match self.texts.get(place as usize) {
            Some(known) => known.as_slice() == text,
            None => false,
        }
    }

    /// The place of the text by a search.
    #[inline(never)]
    fn place_of(&self, text: &[u8]) -> Option<u32>
        ensures found { IfSome result (IsAt self.now text.now) }
        ensures none { IfNone result (Lacks self.now text.now) }
    {
        self.places.get(text).copied()
    }

    /// Keeps a place in a slot, where there are slots.
    fn note(&mut self, slot: usize, place: u32)
        ensures same { self.new ≡ self.old }
    {
        if let Some(recent) = self.recent.get_mut(slot) {
            *recent = place;
        }
    }

    /// How many texts there are.
    pub fn count(&self) -> usize
        ensures { result ≡ length self.now }
    {
        self.texts.len()
    }

    /// Puts a text at the end that isn't in the table.
    #[inline(never)]
    pub fn add(&mut self, text: &[u8]) -> Result<(), Memory>
        requires few { length self.old < 2 ^ 32 }
        requires label { IsLabel text.now }
        requires new { Lacks self.old text.now }
        ensures ok { OnOk result (self.new ≡ self.old ++ text.now ∷ []) }
        ensures err { OnErr result (self.new ≡ self.old) }
        ensures texts { AreTexts self.new }
    {
        take_slots(self.alloc, &mut self.recent)?;
        let key = Vec::from_slice(self.alloc, text)?;
        let last = Text::from_vec(Vec::from_slice(self.alloc, text)?);
        self.texts.reserve(1)?;
        self.places.insert(key, self.texts.len() as u32)?;
        self.texts.push_reserved(last);
        Ok(())
    }

    /// The texts as a list.
    pub fn into_texts(self) -> Result<Texts, Memory>
        ensures { IfOk result (λ texts. texts ≡ self) }
    {
        Ok(Texts::from_vec(self.texts))
    }
}

/// Takes the memory of the slots before the first label is kept.
fn take_slots(alloc: Global, recent: &mut Vec<u32>) -> Result<(), Memory> {
    if recent.is_empty() {
        *recent = vec![in alloc; 0; SLOTS]?;
    }
    Ok(())
}

/// The slot of a label, from its first and last bytes.
fn slot_of(text: &[u8]) -> usize {
    let ends = front_of(text) ^ back_of(text).rotate_left(32);
    (ends.wrapping_mul(SPREAD) >> 50) as usize % SLOTS
}

/// The first bytes of a text as a number, or all bytes of a very short one.
fn front_of(text: &[u8]) -> u64 {
    match text {
        [a, b, c, d, e, f, g, h, ..] => u64::from_le_bytes([*a, *b, *c, *d, *e, *f, *g, *h]),
        [a, b, c, d, ..] => u32::from_le_bytes([*a, *b, *c, *d]) as u64,
        _ => number_of_few(text),
    }
}

/// The last bytes of a text as a number, where it has four or more.
fn back_of(text: &[u8]) -> u64 {
    match text {
        [.., a, b, c, d, e, f, g, h] => u64::from_le_bytes([*a, *b, *c, *d, *e, *f, *g, *h]),
        [.., a, b, c, d] => u32::from_le_bytes([*a, *b, *c, *d]) as u64,
        _ => 0,
    }
}

/// The bytes of a very short text as a number.
fn number_of_few(text: &[u8]) -> u64 {
    let mut number: u64 = 0;
    for byte in text {
        number = number << 8 | *byte as u64;
    }
    number
}
