//! The reader of Aldebaran files.
ghost use Rattle.std.specs.Prelude.{◌≡◌, ◌++◌, [], None, Some, Err, MatchResult, IfOk, IfSome, ℕ, List};
ghost use Rattle.lts_base.specs.Raw.{IsRaw};
ghost use Rattle.aut_text.specs.Grammar.{IsAut, IsAutFile};
ghost use Rattle.aut_text.specs.Faults.{IsOrMemory, RefusesAut};
ghost use Rattle.aut_text.specs.Pieces.{HasRead, HasRoom, IsFed, TellsShown};

use crate::error::AutError;
use crate::pieces::Pieces;
use lts_base::{Memory, RawLts};
use std::alloc::Global;
use std::marker::Model;

/// Reads a file in pieces that may be cut anywhere.
///
/// It keeps what it read, and of the content at most one line. After an error, want of memory
/// too, it gives that error again at each later call.
#[derive(Drop)]
pub struct AutReader {
    pieces: Pieces,
    stopped: Option<AutError>,
}

impl Model for AutReader {
    ghost use Rattle.std.specs.Prelude.{◌≡◌, ◌-◌, ◌^◌, ◌<◌, None};
    ghost use Rattle.aut_text.specs.Pieces.{Fed};

    ghost Value = { Fed };

    ghost view = { λ a. record { pieces = a.pieces; stopped = a.stopped } };

    ghost invariant = { λ a. a.stopped ≡ None → a.pieces.standing.number < 2 ^ 32 - 1 };
}

impl AutReader {
    /// A reader that was fed nothing yet.
    pub fn new(alloc: Global) -> Result<AutReader, Memory>
        ensures { IfOk result (λ reader. (reader.stopped ≡ None) × HasRead [] reader) }
    {
        Ok(AutReader {
            pieces: Pieces::new(alloc),
            stopped: None,
        })
    }

    /// Reads the next bytes of the content.
    pub fn feed(&mut self, piece: &[u8]) -> Result<(), AutError>
        requires room { HasRoom self.old piece.now }
        ensures read { IsFed self.old piece.now self.new }
        ensures told { TellsShown self.old piece.now result }
        ensures stopped { MatchResult result (λ _. self.new.stopped ≡ None) (λ e. self.new.stopped ≡ Some e) }
        ensures again { IfSome self.old.stopped (λ e. result ≡ Err e) }
    {
        if let Some(error) = self.stopped {
            return Err(error);
        }
        if let Err(error) = self.pieces.take(piece) {
            self.stopped = Some(error);
            return Err(error);
        }
        Ok(())
    }

    /// Reads the end of the content, which counts as the LF of the last line.
    pub fn end(self) -> Result<RawLts, AutError>
        ensures read { (content : List ℕ) → HasRead content self → MatchResult result (IsAutFile content) (RefusesAut content) }
        ensures only { (content : List ℕ) → HasRead content self → (r : _) → IsAutFile content r → MatchResult result (λ q. q ≡ r) (λ e. e ≡ AutError.Memory) }
        ensures fault { (content : List ℕ) → HasRead content self → (e : _) → RefusesAut content e → ¬ (e ≡ AutError.Memory) → MatchResult result (λ _. ⊥) (IsOrMemory e) }
        ensures again { IfSome self.stopped (λ e. result ≡ Err e) }
    {
        self.settle()
    }

    fn settle(self) -> Result<RawLts, AutError>
        ensures read { (content : List ℕ) → HasRead content self → MatchResult result (IsAut content) (RefusesAut content) }
        ensures sound { IfOk result IsRaw }
        ensures again { IfSome self.stopped (λ e. result ≡ Err e) }
    {
        if let Some(error) = self.stopped {
            return Err(error);
        }
        let raw = self.pieces.end()?;
        Ok(raw)
    }
}
