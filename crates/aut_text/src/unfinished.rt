//! A line whose end wasn't met yet.
ghost use Rattle.lts_base.specs.declared.limits.TheConstants.{MOST_LINE_BYTES};
ghost use Rattle.std.specs.Prelude.{◌≡◌, ◌<◌, ◌≤◌, ◌++◌, [], true, false, drop, length, IfOk, OnOk, IsTrue, IsFalse, ◌+◌, ℕ, List};
ghost use Rattle.text_scan.specs.Lines as lines;
ghost use Rattle.aut_text.specs.Grammar as grammar;
ghost use Rattle.aut_text.specs.Pieces.{IsKept};
ghost use Rattle.aut_text.specs.Reading.{GoesOn};

use crate::line::is_text;
use lts_base::Memory;
use lts_base::limits::MOST_LINE_BYTES;
use std::alloc::Global;
use std::marker::Model;
use text_scan::{trim, without_cr};

/// The bytes of an unfinished line; of one that is too long and blank so far, its last CR alone.
#[derive(Drop)]
pub(crate) struct Unfinished {
    bytes: Vec<u8>,
    skipped: bool,
}

impl Model for Unfinished {
    ghost use Rattle.lts_base.specs.declared.limits.TheConstants.{MOST_LINE_BYTES};
    ghost use Rattle.std.specs.Prelude.{◌≤◌, length};
    ghost use Rattle.aut_text.specs.Pieces.{Kept};

    ghost Value = { Kept };

    ghost view = { λ a. record { bytes = a.bytes.items; skipped = a.skipped } };

    ghost invariant = { λ a. length a.bytes.items ≤ MOST_LINE_BYTES };
}

impl Unfinished {
    /// No byte, which takes no memory.
    pub fn new(alloc: Global) -> Unfinished
        ensures { result ≡ record { bytes = []; skipped = false } }
    {
        Unfinished {
            bytes: Vec::new(alloc),
            skipped: false,
        }
    }

    /// Whether the line has no byte.
    pub fn is_empty(&self) -> bool
        ensures yes { IsTrue result → (line : List ℕ) → IsKept line self.now → line ≡ [] }
        ensures no { IsFalse result → (line : List ℕ) → IsKept line self.now → line ≡ [] → ⊥ }
    {
        if self.skipped {
            return false;
        }
        self.bytes.is_empty()
    }

    /// The bytes that count: the line's, or those of another blank line.
    pub fn bytes(&self) -> &[u8]
        ensures { result.now ≡ self.now.bytes }
    {
        self.bytes.as_slice()
    }

    /// Begins a new line.
    pub fn clear(&mut self)
        ensures { self.new ≡ record { bytes = []; skipped = false } }
    {
        self.bytes.clear();
        self.skipped = false;
    }

    /// Adds bytes to the line, unless it is too long then and isn't blank, which is answered as
    /// false.
    pub fn add(&mut self, more: &[u8]) -> Result<bool, Memory>
        ensures { IfOk result (λ goes. (line : List ℕ) → IsKept line self.old → GoesOn (line ++ more.now) self.new goes) }
    {
        if self.has_room(more) {
            self.bytes.extend_from_slice(more)?;
            return Ok(true);
        }
        if more.is_empty() {
            return Ok(true);
        }
        if self.is_text_with(more) {
            return Ok(false);
        }
        self.skip(more)?;
        Ok(true)
    }

    /// Whether the line isn't too long with these bytes.
    fn has_room(&self, more: &[u8]) -> bool
        ensures yes { IsTrue result → (self.now.skipped ≡ false) × (length self.now.bytes + length more.now ≤ MOST_LINE_BYTES) }
        ensures no { IsFalse result → (line : List ℕ) → IsKept line self.now → MOST_LINE_BYTES < length (line ++ more.now) }
    {
        if self.skipped {
            return false;
        }
        more.len() <= MOST_LINE_BYTES - self.bytes.len()
    }

    /// Whether the line isn't blank with these bytes.
    fn is_text_with(&self, more: &[u8]) -> bool
        requires { 0 < length more.now }
        ensures { result ≡ grammar.is_text (self.now.bytes ++ more.now) }
    {
        if !trim(self.bytes.as_slice()).is_empty() {
            return true;
        }
        is_text(more)
    }

    /// Keeps of these bytes, which are the last ones of a blank line, the CR at the end.
    fn skip(&mut self, more: &[u8]) -> Result<(), Memory>
        ensures { OnOk result (self.new ≡ record { bytes = drop (length (lines.without_cr more.now)) more.now; skipped = true }) }
    {
        let blanks = without_cr(more).len();
        self.bytes.clear();
        self.bytes.extend_from_slice(&more[blanks..])?;
        self.skipped = true;
        Ok(())
    }
}
