//! Why a content is no trace.
use lts_base::Memory;

/// Why a content is no trace.
#[derive(Clone, Copy, PartialEq, Eq, Debug)]
pub enum TraceError {
    /// This line, counted from 1, is neither a label of the alphabet nor `delta`.
    UnknownLabel(u32),
    /// Memory ran out.
    Memory,
}

impl From<Memory> for TraceError {
    ghost use Rattle.std.specs.Prelude.{◌≡◌};
    ghost use Rattle.trace_text.specs.declared.error.TraceError.TheVariants.{Memory as OutOfMemory};

    ghost from_gives = { λ _ e. e ≡ OutOfMemory };

    fn from(_error: Memory) -> TraceError {
        TraceError::Memory
    }
}
