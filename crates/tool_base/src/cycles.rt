//! Divergent systems: refused with a cycle, or read so that states on cycles are quiet.
ghost use Rattle.std.specs.Prelude.{◌≡◌, map, length, All, IfOk, MatchOption, MatchResult};
ghost use Rattle.lts_base.specs.System.{IsSystem};
ghost use Rattle.lts_base.specs.Shape.{IsConvergent};
ghost use Rattle.tool_base.specs.Sources.{IsCycleOf, IsDiverging, RefusesCycles, AreSettled, read_as};
ghost use Rattle.tool_base.specs.Given.{names_of, IsHalted, IsReadOf};

use crate::load::loaded_name;
use crate::refusal::{Refusal, Stop};
use lts_base::{Divergence, Listed, Lts, Memory, Systems};
use lts_shape::tau_cycle;
use std::alloc::Global;

/// The systems as they are to be read; under `Refuse` they have to be convergent.
pub(crate) fn settled(
    alloc: Global,
    divergence: Divergence,
    names: &[&str],
    systems: Systems,
) -> Result<Systems, Stop>
    requires names { length names.now ≡ length systems }
    requires sound { All IsSystem systems }
    ensures read { MatchResult result (IsReadOf divergence systems) (IsHalted (RefusesCycles divergence (names_of names.now) systems)) }
    ensures sound { IfOk result (All IsSystem) }
{
    match divergence {
        Divergence::Refuse => convergent(alloc, names, systems),
        Divergence::Quiet => Ok(quieted(alloc, systems.as_slice())?),
    }
}

/// The systems, where they are convergent.
fn convergent(alloc: Global, names: &[&str], systems: Systems) -> Result<Systems, Stop>
    requires names { length names.now ≡ length systems }
    ensures { MatchResult result (λ same. (same ≡ systems) × All IsConvergent systems) (IsHalted (IsDiverging (names_of names.now) systems)) }
{
    match first_cycle(alloc, names, systems.as_slice())? {
        None => Ok(systems),
        Some(refusal) => Err(Stop::Refused(refusal)),
    }
}

/// The refusal of the first system that isn't convergent.
fn first_cycle(alloc: Global, names: &[&str], systems: &[Lts]) -> Result<Option<Refusal>, Memory>
    requires names { length names.now ≡ length systems.now }
    ensures { IfOk result (λ found. MatchOption found (All IsConvergent systems.now) (IsDiverging (names_of names.now) systems.now)) }
{
    'systems: for (index, system) in systems.iter().enumerate() {
        if let Some(refusal) = cycle_of(alloc, names[index], system)? {
            return Ok(Some(refusal));
        }
    }
    Ok(None)
}

/// The refusal of the system of the file of this name, None where it is convergent.
fn cycle_of(alloc: Global, name: &str, system: &Lts) -> Result<Option<Refusal>, Memory>
    ensures { IfOk result (λ found. MatchOption found (IsConvergent system.now) (IsCycleOf name.now system.now)) }
{
    let Some(cycle) = tau_cycle(alloc, system)? else {
        return Ok(None);
    };
    let name = loaded_name(alloc, name)?;
    Ok(Some(Refusal::Divergent { name, cycle }))
}

/// The systems, read so that states on cycles of internal moves are quiet.
fn quieted(alloc: Global, systems: &[Lts]) -> Result<Systems, Memory>
    ensures read { IfOk result (λ read. read ≡ map (read_as Divergence.Quiet) systems.now) }
    ensures sound { IfOk result (All IsSystem) }
{
    let mut read = Listed::new(alloc);
    'systems: for system in systems {
        read.push(system.quieted(alloc)?)?;
    }
    Ok(read)
}
