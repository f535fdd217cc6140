//! The line of the header.
ghost use Rattle.lts_base.specs.declared.limits.TheConstants.{MOST_LINE_BYTES};
ghost use Rattle.std.specs.Prelude.{◌≡◌, MatchResult};
ghost use Rattle.text_scan.specs.Lines as lines;
ghost use Rattle.aut_text.specs.Form.{IsHeader};
ghost use Rattle.aut_text.specs.Grammar.{IsClean, IsHeaderLine};
ghost use Rattle.aut_text.specs.Faults.{IsHeaderFault};

use crate::error::AutError;
use crate::form::header_of;
use lts_base::limits::{MOST_LINE_BYTES, MOST_MOVES, MOST_STATES};
use std::str;
use text_scan::without_cr;

/// The numbers that a header names.
#[derive(Clone, Copy, PartialEq, Eq, Debug)]
pub struct Header {
    /// The start state.
    pub start: u64,
    /// How many moves the file is to have.
    pub transitions: u64,
    /// How many states there are.
    pub states: u64,
}

/// The header that the line writes.
pub(crate) fn read_header(line: &[u8]) -> Result<Header, AutError>
    ensures { MatchResult result (IsHeaderLine line.now) (IsHeaderFault line.now) }
{
    if line.len() > MOST_LINE_BYTES {
        return Err(AutError::Header);
    }
    let text = without_cr(line);
    if str::from_utf8(text).is_err() {
        return Err(AutError::Header);
    }
    let Some(header) = header_of(text) else {
        return Err(AutError::Header);
    };
    within(line, header)
}

/// The header, if it is within the limits; the line is lent for what is said of it.
fn within(_line: &[u8], header: Header) -> Result<Header, AutError>
    requires clean { IsClean _line.now }
    requires form { IsHeader (lines.without_cr _line.now) header }
    ensures { MatchResult result (IsHeaderLine _line.now) (IsHeaderFault _line.now) }
{
    if header.states > MOST_STATES as u64 {
        return Err(AutError::TooManyStates);
    }
    if header.transitions > MOST_MOVES as u64 {
        return Err(AutError::TooManyMoves);
    }
    if header.start >= header.states {
        return Err(AutError::Header);
    }
    Ok(header)
}
