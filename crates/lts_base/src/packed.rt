//! Many short texts in one piece of memory.
ghost use Rattle.std.specs.Prelude.{◌≡◌, ℕ, ◌+◌, ◌^◌, ◌<◌, [], ◌∷◌, ◌++◌, length, OnOk, OnErr};
ghost use Rattle.lts_base.specs.Alphabet.{text_at};

use crate::memory::Memory;
use std::alloc::Global;
use std::marker::Model;

/// A list of texts that grows at its end and holds all bytes one after the other, so that no text
/// has memory of its own. The texts have fewer than 2^32 bytes together.
#[derive(Drop, Debug)]
pub struct PackedTexts {
    bytes: Vec<u8>,
    // where each text ends in `bytes`, which is where the next one starts
    ends: Vec<u32>,
}

impl Model for PackedTexts {
    ghost use Rattle.std.specs.Prelude.{ℕ, List, length};
    ghost use Rattle.lts_base.specs.Packed.{pieces, AreEnds};

    ghost Value = { List (List ℕ) };

    ghost view = { λ a. pieces a.bytes.items 0 a.ends.items };

    ghost invariant = { λ a. AreEnds 0 (length a.bytes.items) a.ends.items };
}

impl PackedTexts {
    /// The empty list; later growth takes its memory from `alloc`.
    pub fn new(alloc: Global) -> PackedTexts
        ensures { result ≡ [] }
    {
        PackedTexts {
            bytes: Vec::new(alloc),
            ends: Vec::new(alloc),
        }
    }

    /// How many texts there are.
    pub fn len(&self) -> usize
        ensures { result ≡ length self.now }
    {
        self.ends.len()
    }

    /// The text at a place, from 0.
    pub fn get(&self, place: usize) -> &[u8]
        requires { place < length self.now }
        ensures { result.now ≡ text_at self.now place }
    {
        let end = self.ends[place] as usize;
        if place == 0 {
            return &self.bytes[..end];
        }
        let start = self.ends[place - 1] as usize;
        &self.bytes[start..end]
    }

    /// Appends one text; where memory runs out, or the texts would have 2^32 bytes or more, the
    /// list is as before.
    pub fn push(&mut self, text: &[u8]) -> Result<(), Memory>
        ensures ok { OnOk result (self.new ≡ self.old ++ text.now ∷ []) }
        ensures err { OnErr result (self.new ≡ self.old) }
    {
        let Ok(end) = u32::try_from(self.bytes.len() + text.len()) else {
            return Err(Memory);
        };
        self.ends.reserve(1)?;
        self.bytes.extend_from_slice(text)?;
        self.ends.push_reserved(end);
        Ok(())
    }
}
