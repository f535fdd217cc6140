//! Moves and the labels that they carry, as they are read.
ghost use Rattle.std.specs.Prelude.{◌≡◌, ◌^◌, ◌-◌, ◌<◌, [], length, Some, None, option_map, IfSome, IfOk, IsTrue, IsFalse, OnOk, OnErr};
ghost use Rattle.lts_base.specs.Alphabet.{IsLabel, text_at};
ghost use Rattle.aut_text.specs.Parts.{IsParts, AddsMove, Lacks};

use crate::labels::LabelTable;
use lts_base::{Memory, RawMove, RawMoves, Texts};
use std::alloc::Global;
use std::marker::Model;

/// The moves read so far, with their labels in the order of first use.
#[derive(Drop)]
pub struct RawParts {
    labels: LabelTable,
    moves: RawMoves,
}

impl Model for RawParts {
    ghost use Rattle.aut_text.specs.Parts.{Parts, IsParts};

    ghost Value = { Parts };

    ghost view = { λ a. record { moves = a.moves; labels = a.labels } };

    ghost invariant = { λ a. IsParts (record { moves = a.moves; labels = a.labels }) };
}

impl RawParts {
    /// No move and no label, which takes no memory.
    pub fn new(alloc: Global) -> RawParts
        ensures { result ≡ record { moves = []; labels = [] } }
    {
        RawParts {
            labels: LabelTable::new(alloc),
            moves: RawMoves::new(alloc),
        }
    }

    /// How many moves there are.
    pub fn count(&self) -> usize
        ensures { result ≡ length self.now.moves }
    {
        self.moves.count()
    }

    /// Appends a move; a move without a label is one of Tau.
    pub fn push(&mut self, from: u32, label: Option<&[u8]>, to: u32) -> Result<(), Memory>
        requires few { length self.old.moves < 2 ^ 32 - 1 }
        requires label { IfSome label (λ text. IsLabel text.now) }
        ensures ok { OnOk result (AddsMove self.old self.new (record { from = from; label = option_map (λ text. text.now) label.entry; to = to })) }
        ensures err { OnErr result (self.new ≡ self.old) }
    {
        match label {
            None => self.push_tau(from, to),
            Some(text) => self.push_labelled(from, text, to),
        }
    }

    /// Appends a move whose label is that of a move before it, or which has none; false where there
    /// is no such label, or no memory.
    #[inline(always)]
    pub fn push_known(&mut self, from: u32, label: Option<&[u8]>, to: u32) -> bool
        requires few { length self.old.moves < 2 ^ 32 - 1 }
        ensures added { IsTrue result → AddsMove self.old self.new (record { from = from; label = option_map (λ text. text.now) label.entry; to = to }) }
        ensures known { IsTrue result → IfSome (option_map (λ text. text.now) label.entry) IsLabel }
        ensures not { IsFalse result → self.new ≡ self.old }
    {
        match label {
            None => self.push_tau(from, to).is_ok(),
            Some(text) => self.push_known_label(from, text, to),
        }
    }

    #[inline(always)]
    fn push_known_label(&mut self, from: u32, text: &[u8], to: u32) -> bool
        requires few { length self.old.moves < 2 ^ 32 - 1 }
        ensures added { IsTrue result → AddsMove self.old self.new (record { from = from; label = Some text.now; to = to }) }
        ensures known { IsTrue result → IsLabel text.now }
        ensures not { IsFalse result → self.new ≡ self.old }
    {
        let Some(label) = self.labels.known(text) else {
            return false;
        };
        match self.push_numbered(from, label, to) {
            Ok(()) => true,
            Err(Memory) => false,
        }
    }

    fn push_numbered(&mut self, from: u32, label: u32, to: u32) -> Result<(), Memory>
        requires few { length self.old.moves < 2 ^ 32 - 1 }
        requires known { label < length self.old.labels }
        ensures ok { OnOk result (AddsMove self.old self.new (record { from = from; label = Some (text_at self.old.labels label); to = to })) }
        ensures err { OnErr result (self.new ≡ self.old) }
    {
        self.moves.push(RawMove {
            from,
            label: Some(label),
            to,
        })?;
        Ok(())
    }

    fn push_tau(&mut self, from: u32, to: u32) -> Result<(), Memory>
        requires few { length self.old.moves < 2 ^ 32 - 1 }
        ensures ok { OnOk result (AddsMove self.old self.new (record { from = from; label = None; to = to })) }
        ensures err { OnErr result (self.new ≡ self.old) }
    {
        self.moves.push(RawMove {
            from,
            label: None,
            to,
        })?;
        Ok(())
    }

    fn push_labelled(&mut self, from: u32, text: &[u8], to: u32) -> Result<(), Memory>
        requires few { length self.old.moves < 2 ^ 32 - 1 }
        requires label { IsLabel text.now }
        ensures ok { OnOk result (AddsMove self.old self.new (record { from = from; label = Some text.now; to = to })) }
        ensures err { OnErr result (self.new ≡ self.old) }
    {
        match self.labels.known(text) {
            Some(label) => self.push_numbered(from, label, to),
            None => self.push_new(from, text, to),
        }
    }

    /// Appends a move with a label that is new. The move comes first, since it is easily taken off
    /// again.
    fn push_new(&mut self, from: u32, text: &[u8], to: u32) -> Result<(), Memory>
        requires few { length self.old.moves < 2 ^ 32 - 1 }
        requires label { IsLabel text.now }
        requires new { Lacks self.old.labels text.now }
        ensures ok { OnOk result (AddsMove self.old self.new (record { from = from; label = Some text.now; to = to })) }
        ensures err { OnErr result (self.new ≡ self.old) }
    {
        self.moves.push(RawMove {
            from,
            label: Some(self.labels.count() as u32),
            to,
        })?;
        match self.labels.add(text) {
            Ok(()) => Ok(()),
            Err(Memory) => {
                self.moves.pop();
                Err(Memory)
            }
        }
    }

    /// The labels and the moves.
    pub fn into_lists(self) -> Result<(Texts, RawMoves), Memory>
        ensures lists { IfOk result (λ lists. (lists.0 ≡ self.labels) × (lists.1 ≡ self.moves)) }
        ensures parts { IsParts self }
    {
        let texts = self.labels.into_texts()?;
        Ok((texts, self.moves))
    }
}
