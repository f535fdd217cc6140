//! Why a command gives no answer of its own.
ghost use Rattle.std.specs.Prelude.{◌≡◌};
ghost use Rattle.tool_base.specs.Pages.{stop_of};

use aut_text::AutError;
use cert_text::CertError;
use graphml_text::GraphError;
use log_text::LogError;
use lts_base::{Memory, SplitError, StateList, Text};
use std::alloc::AllocError;
use text_scan::LinesError;
use torx_words::{UsageKind, WordsError};

/// Why a file isn't in its grammar. Want of memory never stands here.
#[derive(Drop, Debug)]
pub enum FileError {
    /// It is no Aldebaran file.
    Aut(AutError),
    /// It is no GraphML file.
    Graph(GraphError),
    /// It lists no labels.
    Lines(LinesError),
    /// It is no certificate.
    Cert(CertError),
    /// It is no file of logs.
    Logs(LogError),
    /// This log, counted from 1, is of another specification, by its digest.
    OtherSpec(u32),
    /// This log, counted from 1, tells another reading of cycles of internal moves.
    OtherDivergence(u32),
    /// It is no trace: this line, counted from 1, is no label of the alphabet nor `delta`; or it is
    /// no script: the label of this line is no input.
    UnknownLabel(u32),
    /// It is the trace of a goal, but has no item, or more than a session may have.
    GoalLength,
}

/// Why the files of a command are refused.
#[derive(Drop, Debug)]
pub enum Refusal {
    /// A file has more bytes than can be read.
    TooLong {
        /// Its name.
        name: Text,
    },
    /// A file isn't in its grammar.
    BadFile {
        /// Its name.
        name: Text,
        /// The first fault.
        error: FileError,
    },
    /// The labels of the files can't be sorted.
    BadLabels {
        /// The first label at fault, or that there are too many.
        error: SplitError,
    },
    /// A system has a cycle of internal moves.
    Divergent {
        /// The name of its file.
        name: Text,
        /// The states of the cycle.
        cycle: StateList,
    },
    /// A file couldn't be read.
    FileFault {
        /// Its name.
        name: Text,
    },
}

/// Why a command stopped before its own answer.
#[derive(Drop, Debug)]
pub enum Stop {
    /// Its words are refused.
    Usage(UsageKind),
    /// Its files are refused.
    Refused(Refusal),
    /// Memory ran out.
    Memory,
}

impl From<Memory> for Stop {
    ghost use Rattle.std.specs.Prelude.{◌≡◌};
    ghost use Rattle.tool_base.specs.declared.refusal.Stop.TheVariants.{Memory as OutOfMemory};

    ghost from_gives = { λ _ e. e ≡ OutOfMemory };

    fn from(_error: Memory) -> Stop {
        Stop::Memory
    }
}

impl From<AllocError> for Stop {
    ghost use Rattle.std.specs.Prelude.{◌≡◌};
    ghost use Rattle.tool_base.specs.declared.refusal.Stop.TheVariants.{Memory as OutOfMemory};

    ghost from_gives = { λ _ e. e ≡ OutOfMemory };

    fn from(_error: AllocError) -> Stop {
        Stop::Memory
    }
}

/// What a command stops with where its words are refused.
pub fn words_stop(error: WordsError) -> Stop
    ensures { result ≡ stop_of error }
{
    match error {
        WordsError::Usage(kind) => Stop::Usage(kind),
        WordsError::Memory => Stop::Memory,
    }
}
