//! The system of what was read.
ghost use Rattle.lts_base.specs.declared.limits.TheConstants.{MOST_MOVES, MOST_STATES};
ghost use Rattle.std.specs.Prelude.{◌≡◌, ◌<◌, ◌≤◌, length, All, IfOk, MatchResult};
ghost use Rattle.std.specs.Option.{unwrap_or};
ghost use Rattle.lts_base.specs.Raw.{IsRaw};
ghost use Rattle.aut_text.specs.Parts.{named_moves};
ghost use Rattle.aut_text.specs.Reading.{IsWithin};
ghost use Rattle.graphml_text.specs.Document as spec;
ghost use Rattle.graphml_text.specs.MachineValues.{reading_of, Says};
ghost use Rattle.graphml_text.specs.Kept.{IsKept};
ghost use Rattle.graphml_text.specs.Ends.{system_of};

use crate::error::GraphError;
use crate::machine::Machine;
use aut_text::RawParts;
use lts_base::{LtsError, RawLts};

/// The system of these parts.
fn built(states: usize, start: usize, parts: RawParts) -> Result<RawLts, GraphError>
    requires few { length parts.moves ≤ MOST_MOVES }
    requires states { states ≤ MOST_STATES }
    requires start { start < states }
    requires within { All (IsWithin states) (named_moves parts) }
    ensures built { MatchResult result (λ r. r ≡ system_of states start parts) (λ e. e ≡ GraphError.Memory) }
    ensures sound { IfOk result IsRaw }
{
    let (labels, moves) = parts.into_lists()?;
    match RawLts::build(states as u32, start as u32, labels, moves) {
        Ok(raw) => Ok(raw),
        Err(refusal) => Err(out_of_memory(refusal)),
    }
}

/// The one refusal that parts like these may meet.
fn out_of_memory(_refusal: LtsError) -> GraphError
    requires { _refusal ≡ LtsError.Memory }
    ensures { result ≡ GraphError.Memory }
{
    GraphError::Memory
}

fn start_of(marked: Option<usize>) -> usize
    ensures { result ≡ unwrap_or marked 0 }
{
    match marked {
        None => 0,
        Some(place) => place,
    }
}

/// The system of what was read of a content of this size.
pub(crate) fn finish(size: usize, machine: Machine) -> Result<RawLts, GraphError>
    requires { IsKept (reading_of machine) }
    ensures read { Says result (spec.finished size (reading_of machine.entry)) }
    ensures sound { IfOk result IsRaw }
{
    if !machine.stack.as_slice().is_empty() {
        return Err(GraphError::Malformed(size as u64));
    }
    if !machine.rooted {
        return Err(GraphError::Malformed(size as u64));
    }
    let states = machine.graph.node_count();
    let parts = match machine.graph.into_parts() {
        Ok(parts) => parts,
        Err(fault) => return Err(fault),
    };
    if states == 0 {
        return Err(GraphError::NoGraph);
    }
    built(states, start_of(machine.marked), parts)
}
