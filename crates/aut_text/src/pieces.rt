//! The pieces of a file, cut anywhere, read line by line.
ghost use Rattle.std.specs.Prelude.{◌≡◌, ◌+◌, ◌-◌, ◌^◌, ◌<◌, ◌∷◌, ◌++◌, [], length, MatchResult, IfOk, OnOk, ℕ, List};
ghost use Rattle.text_scan.specs.Cut.{Lacks};
ghost use Rattle.text_scan.specs.Lines.{lines_of};
ghost use Rattle.lts_base.specs.Raw.{IsRaw};
ghost use Rattle.aut_text.specs.Grammar.{IsAut};
ghost use Rattle.aut_text.specs.Faults.{RefusesAut};
ghost use Rattle.aut_text.specs.Pieces.{IsRead};
ghost use Rattle.aut_text.specs.Reading.{ReadsOn, ReadsLast};

use crate::error::AutError;
use crate::progress::Progress;
use crate::unfinished::Unfinished;
use lts_base::RawLts;
use std::alloc::Global;
use std::marker::Model;
use text_scan::next_line;

/// What the whole lines say, and the line whose end wasn't met yet.
#[derive(Drop)]
pub(crate) struct Pieces {
    progress: Progress,
    line: Unfinished,
}

impl Model for Pieces {
    ghost use Rattle.aut_text.specs.Pieces as pieces;

    ghost Value = { pieces.Pieces };

    ghost view = { λ a. record { standing = a.progress; kept = a.line } };
}

impl Pieces {
    /// Nothing was read, which takes no memory.
    pub fn new(alloc: Global) -> Pieces
        ensures read { IsRead [] result }
        ensures number { result.standing.number ≡ 0 }
    {
        Pieces {
            progress: Progress::new(alloc),
            line: Unfinished::new(alloc),
        }
    }

    /// Reads the next bytes. After an error nothing more can be read.
    pub fn take(&mut self, piece: &[u8]) -> Result<(), AutError>
        requires { self.old.standing.number + length (lines_of piece.now) < 2 ^ 32 - 1 }
        ensures read { ReadsOn self.old piece.now self.new result }
        ensures number { OnOk result (self.new.standing.number < 2 ^ 32 - 1) }
    {
        let mut rest = piece;
        while let Some((line, after)) = next_line(rest) {
            self.end_line(line)?;
            rest = after;
        }
        self.add(rest)?;
        Ok(())
    }

    /// Reads the rest of the unfinished line, after which its LF stands.
    fn end_line(&mut self, rest: &[u8]) -> Result<(), AutError>
        requires { self.old.standing.number < 2 ^ 32 - 1 }
        ensures read { Lacks 10 rest.now → ReadsOn self.old (rest.now ++ 10 ∷ []) self.new result }
        ensures number { OnOk result (self.new.standing.number ≡ self.old.standing.number + 1) }
    {
        if self.line.is_empty() {
            // not copied: most lines stand in one piece
            self.progress.line(rest)?;
            return Ok(());
        }
        self.add(rest)?;
        self.close()?;
        Ok(())
    }

    /// Adds bytes without an LF to the unfinished line.
    fn add(&mut self, bytes: &[u8]) -> Result<(), AutError>
        requires { self.old.standing.number < 2 ^ 32 - 1 }
        ensures read { Lacks 10 bytes.now → ReadsOn self.old bytes.now self.new result }
        ensures number { OnOk result (self.new.standing.number ≡ self.old.standing.number) }
    {
        if self.line.add(bytes)? {
            return Ok(());
        }
        Err(self.progress.too_long())
    }

    /// Reads the unfinished line, after which its LF stands.
    fn close(&mut self) -> Result<(), AutError>
        requires { self.old.standing.number < 2 ^ 32 - 1 }
        ensures read { ReadsOn self.old (10 ∷ []) self.new result }
        ensures number { OnOk result (self.new.standing.number ≡ self.old.standing.number + 1) }
    {
        self.progress.line(self.line.bytes())?;
        self.line.clear();
        Ok(())
    }

    /// The system, where no byte follows.
    pub fn end(self) -> Result<RawLts, AutError>
        requires { self.standing.number < 2 ^ 32 - 1 }
        ensures read { (content : List ℕ) → IsRead content self → MatchResult result (IsAut content) (RefusesAut content) }
        ensures sound { IfOk result IsRaw }
    {
        let mut pieces = self;
        pieces.end_last()?;
        let raw = pieces.progress.finish()?;
        Ok(raw)
    }

    /// Reads the unfinished line, where it has bytes, since none follow.
    fn end_last(&mut self) -> Result<(), AutError>
        requires { self.old.standing.number < 2 ^ 32 - 1 }
        ensures { ReadsLast self.old self.new result }
    {
        if self.line.is_empty() {
            return Ok(());
        }
        self.progress.line(self.line.bytes())?;
        Ok(())
    }
}
