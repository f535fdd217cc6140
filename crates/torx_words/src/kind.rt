//! Why words are refused.
use std::alloc::AllocError;

/// Why words are refused, in the order in which the reasons are tried.
#[derive(Clone, Copy, PartialEq, Eq, Debug)]
pub enum UsageKind {
    /// There are no words.
    NoCommand,
    /// The first word is no command.
    UnknownCommand,
    /// The words after the command aren't in its form.
    Words,
    /// A value or file can't stand where it does.
    Value,
    /// Two options stand that exclude each other.
    Clash,
}

/// Why words give no command.
#[derive(Clone, Copy, PartialEq, Eq, Debug)]
pub enum WordsError {
    /// The words are refused.
    Usage(UsageKind),
    /// Memory ran out.
    Memory,
}

impl From<AllocError> for WordsError {
    ghost use Rattle.std.specs.Prelude.{◌≡◌};
    ghost use Rattle.torx_words.specs.declared.kind.WordsError.TheVariants.{Memory as OutOfMemory};

    ghost from_gives = { λ _ e. e ≡ OutOfMemory };

    fn from(_error: AllocError) -> WordsError {
        WordsError::Memory
    }
}
