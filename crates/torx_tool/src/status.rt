//! The answers of the program, and their exit statuses.
ghost use Rattle.std.specs.Prelude.{◌≡◌};
ghost use Rattle.torx_tool.specs.declared.status.Status.{Status as TheStatus};
ghost use Rattle.torx_tool.specs.Commands.{code_of, check_status as status_of_check, verify_status as status_of_verify, outs_status as status_of_outs, angelic_status as status_of_angelic, replay_status as status_of_replay, migrate_status as status_of_migrate, demo_status as status_of_demo, drive_status as status_of_drive, rehearse_status as status_of_rehearse, replayed_code as code_of_replay, ended_code as code_of_end};
ghost use Rattle.torx_tool.specs.Status.{refusal_status as status_of_refusal};

use cert_check::Checked;
use cmd_angelic::AngelicOutcome;
use cmd_check::CheckOutcome;
use cmd_demo::DemoOutcome;
use cmd_drive::{DriveOutcome, RehearseOutcome};
use cmd_outs::OutsOutcome;
use cmd_replay::{MigrateOutcome, ReplayOutcome};
use cmd_verify::VerifyOutcome;
use conf_decide::What;
use lts_base::{Item, SplitError, StateList, Text, Trace};
use session_core::Verdict;
use tool_base::{FileError, Refusal};
use torx_words::UsageKind;

/// What there was too much of.
#[derive(Clone, Copy, PartialEq, Eq, Debug)]
pub enum LimitWhat {
    /// Moves of a system.
    Moves,
}

/// The answer of a run.
#[derive(Drop, Debug)]
pub enum Status {
    /// The implementation conforms to the specification, and so many pairs of sets were reached.
    Conforms {
        /// The number of pairs.
        pairs: u32,
    },
    /// The first violation.
    Violates {
        /// The least violating trace.
        trace: Trace,
        /// The least item that violates after it.
        shown: Item,
    },
    /// A limit was passed before the decision was made.
    Undecided {
        /// The limit.
        what: What,
        /// How far it was passed.
        reached: u64,
        /// The length of the least trace at which it was passed.
        depth: u32,
    },
    /// The systems are as the certificate states.
    Accepted,
    /// They aren't, or the certificate doesn't show it.
    Rejected {
        /// The first reason.
        why: Checked,
    },
    /// What was asked for was printed.
    Printed,
    /// A prefix of the trace isn't allowed.
    Absent {
        /// The first place whose prefix isn't, counted from 1.
        place: u32,
    },
    /// The logs were replayed.
    Replayed {
        /// How many of them fail.
        fails: u32,
        /// How many of them are off.
        offs: u32,
    },
    /// A log isn't of the specification.
    NotOf {
        /// The first such log of version 1, counted from 1.
        log: u32,
    },
    /// A session ended by its own rule.
    Ended {
        /// How.
        verdict: Verdict,
    },
    /// The sets of a session would have more members than they may have.
    SessionFull {
        /// How many.
        reached: u64,
    },
    /// A dial or a link failed.
    LinkFault {
        /// The session, counted from 1.
        session: u32,
    },
    /// A limit was passed.
    Limit {
        /// The limit.
        what: LimitWhat,
        /// How far it was passed.
        reached: u64,
    },
    /// The words aren't a command.
    Usage {
        /// Why.
        kind: UsageKind,
    },
    /// A file has more bytes than can be read.
    TooLong {
        /// Its name.
        name: Text,
    },
    /// A file isn't in its grammar.
    BadFile {
        /// Its name.
        name: Text,
        /// The first fault.
        error: FileError,
    },
    /// The labels of the files can't be sorted.
    BadLabels {
        /// The first label at fault, or that there are too many.
        error: SplitError,
    },
    /// A system has a cycle of internal moves.
    Divergent {
        /// The name of its file.
        name: Text,
        /// The states of the cycle.
        cycle: StateList,
    },
    /// The implementation isn't input-enabled, though that is asked for.
    NotEnabled {
        /// The name of its file.
        name: Text,
        /// The least state that ends some trace and lacks an input.
        state: u32,
        /// The least input that it lacks, by the number of the label.
        label: u32,
    },
    /// A file couldn't be read.
    FileFault {
        /// Its name.
        name: Text,
    },
    /// The output failed.
    OutFault,
    /// Memory ran out; nothing was written.
    Memory,
}

impl Status {
    /// The exit status of the program: 0 yes, 1 no, 2 not settled, 3 words, 4 content, 5 file,
    /// 6 output, 7 link, 8 memory.
    pub fn code(&self) -> u8
        ensures { result ≡ code_of self.now }
    {
        match self {
            Status::Conforms { .. } => 0,
            Status::Violates { .. } => 1,
            Status::Undecided { .. } => 2,
            Status::Accepted => 0,
            Status::Rejected { .. } => 1,
            Status::Printed => 0,
            Status::Absent { .. } => 1,
            Status::Replayed { fails, offs } => replayed_code(*fails, *offs),
            Status::NotOf { .. } => 1,
            Status::Ended { verdict } => ended_code(*verdict),
            Status::SessionFull { .. } => 2,
            Status::LinkFault { .. } => 7,
            Status::Limit { .. } => 2,
            Status::Usage { .. } => 3,
            Status::TooLong { .. } => 4,
            Status::BadFile { .. } => 4,
            Status::BadLabels { .. } => 4,
            Status::Divergent { .. } => 4,
            Status::NotEnabled { .. } => 4,
            Status::FileFault { .. } => 5,
            Status::OutFault => 6,
            Status::Memory => 8,
        }
    }
}

/// An outcome of a command; `due` is the answer of the program that tells it.
pub trait Outcome {
    ghost due: { Self → TheStatus };

    /// The answer.
    fn status(self) -> Status
        ensures { result ≡ due self };
}

impl Outcome for CheckOutcome {
    ghost due = { status_of_check };

    fn status(self) -> Status {
        match self {
            CheckOutcome::Conforms { pairs } => Status::Conforms { pairs },
            CheckOutcome::Violates { trace, shown } => Status::Violates { trace, shown },
            CheckOutcome::Undecided {
                what,
                reached,
                depth,
            } => Status::Undecided {
                what,
                reached,
                depth,
            },
            CheckOutcome::NotEnabled { name, state, label } => {
                Status::NotEnabled { name, state, label }
            }
        }
    }
}

impl Outcome for VerifyOutcome {
    ghost due = { status_of_verify };

    fn status(self) -> Status {
        match self {
            VerifyOutcome::Accepted => Status::Accepted,
            VerifyOutcome::Rejected { why } => Status::Rejected { why },
        }
    }
}

impl Outcome for OutsOutcome {
    ghost due = { status_of_outs };

    fn status(self) -> Status {
        match self {
            OutsOutcome::Printed => Status::Printed,
            OutsOutcome::Absent { place } => Status::Absent { place },
        }
    }
}

impl Outcome for AngelicOutcome {
    ghost due = { status_of_angelic };

    fn status(self) -> Status {
        match self {
            AngelicOutcome::Printed => Status::Printed,
            AngelicOutcome::TooManyMoves { reached } => Status::Limit {
                what: LimitWhat::Moves,
                reached,
            },
        }
    }
}

impl Outcome for ReplayOutcome {
    ghost due = { status_of_replay };

    fn status(self) -> Status {
        let ReplayOutcome { fails, offs } = self;
        Status::Replayed { fails, offs }
    }
}

impl Outcome for MigrateOutcome {
    ghost due = { status_of_migrate };

    fn status(self) -> Status {
        match self {
            MigrateOutcome::Printed => Status::Printed,
            MigrateOutcome::NotOf { log } => Status::NotOf { log },
        }
    }
}

impl Outcome for DemoOutcome {
    ghost due = { status_of_demo };

    fn status(self) -> Status {
        match self {
            DemoOutcome::NoSize => Status::Usage {
                kind: UsageKind::Value,
            },
            DemoOutcome::Decided(decision) => decision.status(),
        }
    }
}

impl Outcome for DriveOutcome {
    ghost due = { status_of_drive };

    fn status(self) -> Status {
        match self {
            DriveOutcome::Ended { verdict } => Status::Ended { verdict },
            DriveOutcome::Full { reached } => Status::SessionFull { reached },
            DriveOutcome::Broken => Status::LinkFault { session: 1 },
        }
    }
}

impl Outcome for RehearseOutcome {
    ghost due = { status_of_rehearse };

    fn status(self) -> Status {
        match self {
            RehearseOutcome::NotEnabled { name, state, label } => {
                Status::NotEnabled { name, state, label }
            }
            RehearseOutcome::Went { outcome } => outcome.status(),
        }
    }
}

/// The exit status of a session.
fn ended_code(verdict: Verdict) -> u8
    ensures { result ≡ code_of_end verdict }
{
    match verdict {
        Verdict::Pass => 0,
        Verdict::Fail(_) => 1,
        Verdict::Ended | Verdict::Stalled | Verdict::Long => 2,
    }
}

/// The exit status of a replay.
fn replayed_code(fails: u32, offs: u32) -> u8
    ensures { result ≡ code_of_replay fails offs }
{
    if fails > 0 {
        1
    } else if offs > 0 {
        2
    } else {
        0
    }
}

/// The answer where files are refused.
pub fn refusal_status(refusal: Refusal) -> Status
    ensures { result ≡ status_of_refusal refusal }
{
    match refusal {
        Refusal::TooLong { name } => Status::TooLong { name },
        Refusal::BadFile { name, error } => Status::BadFile { name, error },
        Refusal::BadLabels { error } => Status::BadLabels { error },
        Refusal::Divergent { name, cycle } => Status::Divergent { name, cycle },
        Refusal::FileFault { name } => Status::FileFault { name },
    }
}
