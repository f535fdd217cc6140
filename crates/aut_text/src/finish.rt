//! The end of a file: the system of its header and moves.
ghost use Rattle.lts_base.specs.declared.limits.TheConstants.{MOST_MOVES, MOST_STATES};
ghost use Rattle.std.specs.Prelude.{◌≡◌, ◌⊎◌, ◌<◌, ◌≤◌, length, All, MatchResult, IfOk};
ghost use Rattle.lts_base.specs.Raw.{IsRaw};
ghost use Rattle.aut_text.specs.Parts.{named_moves};
ghost use Rattle.aut_text.specs.Reading.{IsWithin, IsFinished, IsMiscount};

use crate::error::AutError;
use crate::header::Header;
use crate::parts::RawParts;
use lts_base::{LtsError, RawLts};

/// The system of the header and the moves, if they are as many as it says.
pub(crate) fn finish(header: Header, parts: RawParts) -> Result<RawLts, AutError>
    requires few { length parts.moves ≤ MOST_MOVES }
    requires transitions { header.transitions ≤ MOST_MOVES }
    requires states { header.states ≤ MOST_STATES }
    requires start { header.start < header.states }
    requires within { All (IsWithin header.states) (named_moves parts) }
    ensures built { MatchResult result (IsFinished header parts) (λ e. (e ≡ AutError.Memory) ⊎ IsMiscount header parts e) }
    ensures sound { IfOk result IsRaw }
{
    let found = parts.count() as u32;
    let declared = header.transitions as u32;
    if found != declared {
        return Err(AutError::Count { declared, found });
    }
    let (labels, moves) = parts.into_lists()?;
    match RawLts::build(header.states as u32, header.start as u32, labels, moves) {
        Ok(raw) => Ok(raw),
        Err(refusal) => Err(out_of_memory(refusal)),
    }
}

/// The one refusal that parts like these may meet.
fn out_of_memory(_refusal: LtsError) -> AutError
    requires { _refusal ≡ LtsError.Memory }
    ensures { result ≡ AutError.Memory }
{
    AutError::Memory
}
