//! Why a certificate is refused.
use lts_base::Memory;
use std::alloc::AllocError;
use thiserror::Error;

/// Why a content is no certificate. Lines are counted from 1.
#[derive(Debug, Drop, Error)]
pub enum CertError {
    /// The line may not stand here.
    #[error("line {0}")]
    Line(u32),
    /// The content ends before this line, or in it.
    #[error("cut {0}")]
    Cut(u32),
    /// The line names no item of the alphabet, or no output as the one that is shown.
    #[error("unknown-label {0}")]
    UnknownLabel(u32),
    /// The line lists a state that isn't one of its side.
    #[error("state-range {0}")]
    StateRange(u32),
    /// Memory ran out.
    #[error("memory")]
    Memory,
}

impl From<Memory> for CertError {
    ghost use Rattle.std.specs.Prelude.{◌≡◌};
    ghost use Rattle.cert_text.specs.declared.error.CertError.TheVariants.{Memory as OutOfMemory};

    ghost from_gives = { λ _ e. e ≡ OutOfMemory };

    fn from(_error: Memory) -> CertError {
        CertError::Memory
    }
}

impl From<AllocError> for CertError {
    ghost use Rattle.std.specs.Prelude.{◌≡◌};
    ghost use Rattle.cert_text.specs.declared.error.CertError.TheVariants.{Memory as OutOfMemory};

    ghost from_gives = { λ _ e. e ≡ OutOfMemory };

    fn from(_error: AllocError) -> CertError {
        CertError::Memory
    }
}
