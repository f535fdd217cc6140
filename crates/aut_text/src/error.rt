//! Why a content is refused.
use lts_base::Memory;
use std::alloc::{AllocError, AllocFailed};
use thiserror::Error;

/// Why a content is no Aldebaran file. Lines are counted from 1.
#[derive(Clone, Copy, Debug, Error)]
pub enum AutError {
    /// There is no header, or its start isn't below its states.
    #[error("header")]
    Header,
    /// The line writes no move, or is too long.
    #[error("line {0}")]
    Line(u32),
    /// An end of the line's move isn't below the header's states.
    #[error("state {0}")]
    State(u32),
    /// There are fewer or more moves than the header says.
    #[error("count declared={declared} found={found}")]
    Count {
        /// The header's transitions.
        declared: u32,
        /// The moves that the file has.
        found: u32,
    },
    /// The line's label has more than 1,024 bytes.
    #[error("label-long {0}")]
    LabelLong(u32),
    /// The line isn't UTF-8.
    #[error("not-utf8 {0}")]
    NotUtf8(u32),
    /// The header has more than 65,536 states.
    #[error("too-many-states")]
    TooManyStates,
    /// The header or the file has more than 1,048,576 moves.
    #[error("too-many-moves")]
    TooManyMoves,
    /// Memory ran out.
    #[error("memory")]
    Memory,
}

impl From<Memory> for AutError {
    ghost use Rattle.std.specs.Prelude.{◌≡◌};
    ghost use Rattle.aut_text.specs.declared.error.AutError.TheVariants.{Memory as OutOfMemory};

    ghost from_gives = { λ _ e. e ≡ OutOfMemory };

    fn from(_error: Memory) -> AutError {
        AutError::Memory
    }
}

impl From<AllocError> for AutError {
    ghost use Rattle.std.specs.Prelude.{◌≡◌};
    ghost use Rattle.aut_text.specs.declared.error.AutError.TheVariants.{Memory as OutOfMemory};

    ghost from_gives = { λ _ e. e ≡ OutOfMemory };

    fn from(_error: AllocError) -> AutError {
        AutError::Memory
    }
}
