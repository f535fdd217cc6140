//! Why a content is no script.
use lts_base::Memory;

/// Why a content is no script.
#[derive(Clone, Copy, PartialEq, Eq, Debug)]
pub enum ScriptError {
    /// This line, counted from 1, is neither `observe` nor `send` and a text.
    Line(u32),
    /// This line, counted from 1, is `send` and a text that is no input of the alphabet.
    UnknownLabel(u32),
    /// Memory ran out.
    Memory,
}

impl From<Memory> for ScriptError {
    ghost use Rattle.std.specs.Prelude.{◌≡◌};
    ghost use Rattle.script_text.specs.declared.error.ScriptError.TheVariants.{Memory as OutOfMemory};

    ghost from_gives = { λ _ e. e ≡ OutOfMemory };

    fn from(_error: Memory) -> ScriptError {
        ScriptError::Memory
    }
}
