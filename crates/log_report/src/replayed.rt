//! The verdicts on the logs of a file, and their text.
ghost use Rattle.std.specs.Prelude.{◌≡◌, ◌<◌, ◌^◌, length, All, IfOk};
ghost use Rattle.lts_base.specs.Alphabet.{IsOver};
ghost use Rattle.log_text.specs.Logs.{IsNamed};
ghost use Rattle.log_report.specs.Replayed.{IsReplayed};

use crate::verdicts::{count_fails, count_offs, verdicts_of, verdicts_text};
use log_text::Named;
use lts_base::{Labels, Lts, Memory, Text};
use std::alloc::Global;

/// How many logs of a file fail and are off.
#[derive(Clone, Copy, PartialEq, Eq, Debug)]
pub struct ReplayOutcome {
    /// How many logs fail.
    pub fails: u32,
    /// How many logs are off.
    pub offs: u32,
}

/// The verdicts on the logs of a file.
#[derive(Drop, Debug)]
pub struct Replay {
    /// How many logs fail and are off.
    pub outcome: ReplayOutcome,
    /// A line for each log.
    pub text: Text,
}

/// The verdict on each log, in its own mode, each on a line; and how many logs fail and are off.
/// There are fewer than 2^32 logs.
pub fn replay_logs(
    alloc: Global,
    labels: &Labels,
    system: &Lts,
    logs: &[Named],
) -> Result<Replay, Memory>
    requires over { IsOver labels.now system.now }
    requires logs { All IsNamed logs.now }
    requires few { length logs.now < 2 ^ 32 }
    ensures { IfOk result (λ r. IsReplayed labels.now system.now logs.now r.outcome r.text) }
{
    let verdicts = verdicts_of(alloc, labels, system, logs)?;
    let text = verdicts_text(alloc, &verdicts)?;
    let outcome = ReplayOutcome {
        fails: count_fails(&verdicts),
        offs: count_offs(&verdicts),
    };
    Ok(Replay { outcome, text })
}
