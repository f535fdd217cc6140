//! The lines of a log, one by one.
ghost use Rattle.std.specs.Prelude.{◌≡◌, MatchResult};
ghost use Rattle.text_scan.specs.Cut.{Lacks};
ghost use Rattle.log_text.specs.Adding.{Reads, IsStage};

use crate::entry::{read_leaving, read_listing};
use crate::error::LogError;
use crate::head::{
    read_divergence, read_mode_one, read_mode_two, read_patience, read_spec, read_steps, read_title,
};
use crate::stage::{Stage, Step};
use std::alloc::Global;

/// What line `number` adds to a log that is begun.
pub fn read_line(alloc: Global, stage: Stage, line: &[u8], number: u32) -> Result<Step, LogError>
    requires stage { IsStage stage }
    requires lacks { Lacks 10 line.now }
    ensures { Reads stage line.now number result }
{
    match stage {
        Stage::Opening => read_title(line, number),
        Stage::TitledOne => read_mode_one(line, number),
        Stage::TitledTwo => read_mode_two(line, number),
        Stage::Moded(mode) => read_divergence(mode, line, number),
        Stage::Divided(mode, divergence) => read_spec(alloc, mode, divergence, line, number),
        Stage::Headed(head, mode) => read_patience(head, mode, line, number),
        Stage::Patient(head, mode, patience) => {
            read_steps(alloc, head, mode, patience, line, number)
        }
        Stage::Listing(setting, entries) => read_listing(alloc, setting, entries, line, number),
        Stage::Leaving(setting, entries, left) => {
            read_leaving(setting, entries, left, line, number)
        }
    }
}
