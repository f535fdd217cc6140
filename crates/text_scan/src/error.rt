//! Why a list of labels is refused.
use lts_base::Memory;
use thiserror::Error;

/// Why a content lists no labels. Lines are counted from 1.
#[derive(Debug, Drop, Error)]
pub enum LinesError {
    /// A line has a byte below 32.
    #[error("line {0}")]
    Line(u32),
    /// A line has more than `MOST_LABEL_BYTES` bytes.
    #[error("label-long {0}")]
    LabelLong(u32),
    /// A line isn't UTF-8.
    #[error("not-utf8 {0}")]
    NotUtf8(u32),
    /// Memory ran out.
    #[error("memory")]
    Memory,
}

impl From<Memory> for LinesError {
    ghost use Rattle.std.specs.Prelude.{◌≡◌};
    ghost use Rattle.text_scan.specs.declared.error.LinesError.TheVariants.{Memory as OutOfMemory};

    ghost from_gives = { λ _ e. e ≡ OutOfMemory };

    fn from(_error: Memory) -> LinesError {
        LinesError::Memory
    }
}
