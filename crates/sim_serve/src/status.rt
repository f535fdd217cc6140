//! The answers of the simulated implementation, and their exit statuses.
ghost use Rattle.std.specs.Prelude.{◌≡◌};
ghost use Rattle.sim_serve.specs.Status.{code_of, refusal_status as status_of_refusal};

use lts_base::{SplitError, StateList, Text};
use tool_base::{FileError, Refusal};
use torx_words::UsageKind;

/// The answer of the simulated implementation.
#[derive(Drop, Debug)]
pub enum SimStatus {
    /// All sessions were served.
    Served,
    /// The words are refused.
    Usage {
        /// Why.
        kind: UsageKind,
    },
    /// The file has more bytes than can be read.
    TooLong {
        /// Its name.
        name: Text,
    },
    /// The file isn't in its grammar.
    BadFile {
        /// Its name.
        name: Text,
        /// The first fault.
        error: FileError,
    },
    /// The labels of the file can't be sorted.
    BadLabels {
        /// The first label at fault, or that there are too many.
        error: SplitError,
    },
    /// The system has a cycle of internal moves.
    Divergent {
        /// The name of its file.
        name: Text,
        /// The states of the cycle.
        cycle: StateList,
    },
    /// The system isn't input-enabled.
    NotEnabled {
        /// The name of its file.
        name: Text,
        /// The least state that ends some trace and lacks an input.
        state: u32,
        /// The least input that it lacks, by the number of the label.
        label: u32,
    },
    /// The file couldn't be read.
    FileFault {
        /// Its name.
        name: Text,
    },
    /// The output failed.
    OutFault,
    /// The door refused to listen at the address, or to let a tester in.
    DoorFault,
    /// Memory ran out.
    Memory,
}

impl SimStatus {
    /// The exit status of the program: 0 served, 3 words, 4 content, 5 file, 6 output, 7 door,
    /// 8 memory.
    pub fn code(&self) -> u8
        ensures { result ≡ code_of self.now }
    {
        match self {
            SimStatus::Served => 0,
            SimStatus::Usage { .. } => 3,
            SimStatus::TooLong { .. } => 4,
            SimStatus::BadFile { .. } => 4,
            SimStatus::BadLabels { .. } => 4,
            SimStatus::Divergent { .. } => 4,
            SimStatus::NotEnabled { .. } => 4,
            SimStatus::FileFault { .. } => 5,
            SimStatus::OutFault => 6,
            SimStatus::DoorFault => 7,
            SimStatus::Memory => 8,
        }
    }
}

/// The answer where the file is refused.
pub(crate) fn refusal_status(refusal: Refusal) -> SimStatus
    ensures { result ≡ status_of_refusal refusal }
{
    match refusal {
        Refusal::TooLong { name } => SimStatus::TooLong { name },
        Refusal::BadFile { name, error } => SimStatus::BadFile { name, error },
        Refusal::BadLabels { error } => SimStatus::BadLabels { error },
        Refusal::Divergent { name, cycle } => SimStatus::Divergent { name, cycle },
        Refusal::FileFault { name } => SimStatus::FileFault { name },
    }
}
