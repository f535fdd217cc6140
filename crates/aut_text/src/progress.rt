//! What the whole lines of a file say, one after another.
ghost use Rattle.std.specs.Prelude.{◌≡◌, ◌+◌, ◌-◌, ◌^◌, ◌<◌, true, None, Some, MatchResult, IfOk, ℕ, List};
ghost use Rattle.text_scan.specs.Lines.{lines_of};
ghost use Rattle.lts_base.specs.Raw.{IsRaw};
ghost use Rattle.aut_text.specs.Grammar.{IsAut};
ghost use Rattle.aut_text.specs.Faults.{IsHeaderFault, RefusesAut};
ghost use Rattle.aut_text.specs.Pieces.{StandsAfter, no_parts};
ghost use Rattle.aut_text.specs.Reading.{ReadsHead, Steps, IsNextFault, too_long_by};
ghost use Rattle.aut_text.specs.Grammar as grammar;

use crate::error::AutError;
use crate::finish::finish;
use crate::header::{Header, read_header};
use crate::line::{add_line, is_text};
use crate::parts::RawParts;
use lts_base::RawLts;
use std::alloc::Global;
use std::marker::Model;

/// The header and the moves of the lines so far, and how many lines these are.
#[derive(Drop)]
pub(crate) struct Progress {
    head: Option<Header>,
    parts: RawParts,
    number: u32,
}

impl Model for Progress {
    ghost use Rattle.std.specs.Prelude.{ℕ, List};
    ghost use Rattle.aut_text.specs.Pieces.{Standing, StandsAfter};

    ghost Value = { Standing };

    ghost view = { λ a. record { head = a.head; parts = a.parts; number = a.number } };

    ghost invariant = { λ a. (lines : List (List ℕ)) × StandsAfter lines (record { head = a.head; parts = a.parts; number = a.number }) };
}

impl Progress {
    /// No line was read.
    pub fn new(alloc: Global) -> Progress
        ensures { result ≡ record { head = None; parts = no_parts; number = 0 } }
    {
        Progress {
            head: None,
            parts: RawParts::new(alloc),
            number: 0,
        }
    }

    /// Reads the next line.
    #[inline(always)]
    pub fn line(&mut self, line: &[u8]) -> Result<(), AutError>
        requires { self.old.number < 2 ^ 32 - 1 }
        ensures { MatchResult result (λ _. Steps self.old line.now self.new) (IsNextFault self.old line.now) }
    {
        match self.head {
            None => self.head_line(line),
            Some(header) => self.move_line(line, header),
        }
    }

    /// Reads the next line, where none had text yet.
    fn head_line(&mut self, line: &[u8]) -> Result<(), AutError>
        requires none { self.old.head ≡ None }
        requires number { self.old.number < 2 ^ 32 - 1 }
        ensures { MatchResult result (λ _. Steps self.old line.now self.new) (IsNextFault self.old line.now) }
    {
        self.head = head_in(line)?;
        self.number += 1;
        Ok(())
    }

    /// Reads the next line, where the header was read.
    fn move_line(&mut self, line: &[u8], header: Header) -> Result<(), AutError>
        requires head { self.old.head ≡ Some header }
        requires number { self.old.number < 2 ^ 32 - 1 }
        ensures { MatchResult result (λ _. Steps self.old line.now self.new) (IsNextFault self.old line.now) }
    {
        add_line(&mut self.parts, line, self.number + 1, header.states)?;
        self.number += 1;
        Ok(())
    }

    /// The fault of the next line where it is too long.
    pub fn too_long(&self) -> AutError
        requires { self.now.number < 2 ^ 32 - 1 }
        ensures { result ≡ too_long_by self.now.head (self.now.number + 1) }
    {
        match self.head {
            None => AutError::Header,
            Some(_) => AutError::Line(self.number + 1),
        }
    }

    /// The system, where no line follows.
    pub fn finish(self) -> Result<RawLts, AutError>
        ensures read { (content : List ℕ) → StandsAfter (lines_of content) self → MatchResult result (IsAut content) (RefusesAut content) }
        ensures sound { IfOk result IsRaw }
    {
        match self.head {
            None => Err(AutError::Header),
            Some(header) => finish(header, self.parts),
        }
    }
}

/// The header, unless the line is blank.
fn head_in(line: &[u8]) -> Result<Option<Header>, AutError>
    ensures { MatchResult result (ReadsHead line.now) (λ e. (grammar.is_text line.now ≡ true) × IsHeaderFault line.now e) }
{
    if !is_text(line) {
        return Ok(None);
    }
    let header = read_header(line)?;
    Ok(Some(header))
}
