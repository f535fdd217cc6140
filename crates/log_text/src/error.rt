//! Why logs are refused.
use lts_base::Memory;
use std::alloc::AllocError;
use thiserror::Error;

/// Why a content is no text of logs. Lines are counted from 1.
#[derive(Debug, Drop, Error)]
pub enum LogError {
    /// The first line is the title of no version.
    #[error("version")]
    Version,
    /// The line may not stand here.
    #[error("line {0}")]
    Line(u32),
    /// The content ends before the end of a log.
    #[error("cut")]
    Cut,
    /// Memory ran out.
    #[error("memory")]
    Memory,
}

impl From<Memory> for LogError {
    ghost use Rattle.std.specs.Prelude.{◌≡◌};
    ghost use Rattle.log_text.specs.declared.error.LogError.TheVariants.{Memory as OutOfMemory};

    ghost from_gives = { λ _ e. e ≡ OutOfMemory };

    fn from(_error: Memory) -> LogError {
        LogError::Memory
    }
}

impl From<AllocError> for LogError {
    ghost use Rattle.std.specs.Prelude.{◌≡◌};
    ghost use Rattle.log_text.specs.declared.error.LogError.TheVariants.{Memory as OutOfMemory};

    ghost from_gives = { λ _ e. e ≡ OutOfMemory };

    fn from(_error: AllocError) -> LogError {
        LogError::Memory
    }
}
