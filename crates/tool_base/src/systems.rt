//! The systems that a command's words name, over one alphabet.
ghost use Rattle.std.specs.Prelude.{◌≡◌, ◌∷◌, [], map, length, All, IfOk, MatchResult};
ghost use Rattle.edge_io.specs.Outside.{KeepsFiles};
ghost use Rattle.lts_base.specs.System.{IsSystem};
ghost use Rattle.lts_base.specs.Alphabet.{IsAlphabet, IsOver};
ghost use Rattle.tool_base.specs.Given.{sources_from, names_of, IsHalted, IsSplitOf, IsSettledOf, RefusesSettled};
ghost use Rattle.tool_base.specs.Sources.{AreRead, RefusesLabels};
ghost use Rattle.tool_base.specs.Loaded.{LoadsSystems, LoadsOne, LoadsTwo, LoadsDigestedSystem, LoadsDigestedPair, IsOneOver, IsDigestedOver, AreTwoOver, AreDigestedOver, one_source, two_sources};

use crate::cycles::settled;
use crate::load::load_digested;
use crate::raw::{RawPair, raw_pair, raw_systems, rule};
use crate::refusal::{Refusal, Stop};
use crate::sources::Sources;
use edge_io::Files;
use log_text::Digest;
use lts_base::{Divergence, Labels, Listed, Lts, RawLts, Rule, SplitError, SplitSystems, split};
use std::alloc::Global;
use torx_words::Sorting;

/// The system of one file, over its alphabet.
#[derive(Drop)]
pub struct OneSystem {
    /// The alphabet.
    pub labels: Labels,
    /// The system.
    pub system: Lts,
}

/// The systems of two files, over one alphabet.
#[derive(Drop)]
pub struct TwoSystems {
    /// The alphabet.
    pub labels: Labels,
    /// The system of the first file.
    pub first: Lts,
    /// The system of the second file.
    pub second: Lts,
}

/// The system of one file, over its alphabet, and the digest of the file.
#[derive(Drop)]
pub struct DigestedSystem {
    /// The alphabet.
    pub labels: Labels,
    /// The system.
    pub system: Lts,
    /// The digest of the bytes that the system was read from.
    pub digest: Digest,
}

/// The systems of two files, over one alphabet, and the digest of the first file.
#[derive(Drop)]
pub struct DigestedPair {
    /// The alphabet.
    pub labels: Labels,
    /// The system of the first file.
    pub first: Lts,
    /// The system of the second file.
    pub second: Lts,
    /// The digest of the bytes that the first system was read from.
    pub digest: Digest,
}

/// The system of the file of this name.
pub fn one_system<F: Files>(
    alloc: Global,
    files: &mut F,
    name: &str,
    sorting: Sorting<'_>,
    divergence: Divergence,
) -> Result<OneSystem, Stop>
    ensures loaded { LoadsOne (F.told files.old) (F.told files.new) (one_source name.now sorting.entry divergence) result }
    ensures over { IfOk result IsOneOver }
    ensures keeps { KeepsFiles (F.told files.old) (F.told files.new) }
{
    let sources = Sources {
        names: &[name],
        sorting,
        divergence,
    };
    let SplitSystems { labels, systems } = all_systems(alloc, files, &sources)?;
    let mut systems = systems.into_vec();
    let Some(system) = systems.pop() else {
        unreachable!()
    };
    Ok(OneSystem { labels, system })
}

/// The system of the file of this name, and the digest of the file.
pub fn digested_system<F: Files>(
    alloc: Global,
    files: &mut F,
    name: &str,
    sorting: Sorting<'_>,
    divergence: Divergence,
) -> Result<DigestedSystem, Stop>
    ensures loaded { LoadsDigestedSystem (F.told files.old) (F.told files.new) (one_source name.now sorting.entry divergence) name.now result }
    ensures over { IfOk result IsDigestedOver }
    ensures keeps { KeepsFiles (F.told files.old) (F.told files.new) }
{
    let sources = Sources {
        names: &[name],
        sorting,
        divergence,
    };
    let (raw, digest) = load_digested(alloc, files, name)?;
    let mut raws = Listed::new(alloc);
    raws.push(raw)?;
    let SplitSystems { labels, systems } = over_files(alloc, files, &sources, raws.as_slice())?;
    let mut systems = systems.into_vec();
    let Some(system) = systems.pop() else {
        unreachable!()
    };
    Ok(DigestedSystem {
        labels,
        system,
        digest,
    })
}

/// The systems of the files of these names.
pub fn two_systems<F: Files>(
    alloc: Global,
    files: &mut F,
    first: &str,
    second: &str,
    sorting: Sorting<'_>,
    divergence: Divergence,
) -> Result<TwoSystems, Stop>
    ensures loaded { LoadsTwo (F.told files.old) (F.told files.new) (two_sources first.now second.now sorting.entry divergence) result }
    ensures over { IfOk result AreTwoOver }
    ensures keeps { KeepsFiles (F.told files.old) (F.told files.new) }
{
    let sources = Sources {
        names: &[first, second],
        sorting,
        divergence,
    };
    let SplitSystems { labels, systems } = all_systems(alloc, files, &sources)?;
    let mut systems = systems.into_vec();
    let (Some(second), Some(first)) = (systems.pop(), systems.pop()) else {
        unreachable!()
    };
    Ok(TwoSystems {
        labels,
        first,
        second,
    })
}

/// The systems of the files of these names, and the digest of the first file.
pub fn digested_pair<F: Files>(
    alloc: Global,
    files: &mut F,
    first: &str,
    second: &str,
    sorting: Sorting<'_>,
    divergence: Divergence,
) -> Result<DigestedPair, Stop>
    ensures loaded { LoadsDigestedPair (F.told files.old) (F.told files.new) (two_sources first.now second.now sorting.entry divergence) first.now result }
    ensures over { IfOk result AreDigestedOver }
    ensures keeps { KeepsFiles (F.told files.old) (F.told files.new) }
{
    let names = [first, second];
    let sources = Sources {
        names: &names,
        sorting,
        divergence,
    };
    let RawPair { raws, digest } = raw_pair(alloc, files, first, second)?;
    let SplitSystems { labels, systems } = over_files(alloc, files, &sources, raws.as_slice())?;
    let mut systems = systems.into_vec();
    let (Some(second), Some(first)) = (systems.pop(), systems.pop()) else {
        unreachable!()
    };
    Ok(DigestedPair {
        labels,
        first,
        second,
        digest,
    })
}

/// The systems of all these files, in their order.
fn all_systems<F: Files>(
    alloc: Global,
    files: &mut F,
    sources: &Sources<'_>,
) -> Result<SplitSystems, Stop>
    ensures loaded { LoadsSystems (F.told files.old) (F.told files.new) (sources_from sources.now) result }
    ensures sound { IfOk result (λ s. All IsSystem s.systems) }
    ensures over { IfOk result (λ s. All (IsOver s.labels) s.systems) }
    ensures keeps { KeepsFiles (F.told files.old) (F.told files.new) }
{
    let raws = raw_systems(alloc, files, sources.names)?;
    over_files(alloc, files, sources, raws.as_slice())
}

/// The systems of all files, which were read as these raw ones.
fn over_files<F: Files>(
    alloc: Global,
    files: &mut F,
    sources: &Sources<'_>,
    raws: &[RawLts],
) -> Result<SplitSystems, Stop>
    requires read { AreRead (F.told files.old).content (names_of sources.now.names.now) raws.now }
    ensures loaded { LoadsSystems (F.told files.old) (F.told files.new) (sources_from sources.now) result }
    ensures sound { IfOk result (λ s. All IsSystem s.systems) }
    ensures over { IfOk result (λ s. All (IsOver s.labels) s.systems) }
    ensures keeps { KeepsFiles (F.told files.old) (F.told files.new) }
{
    let rule = rule(alloc, files, sources.sorting)?;
    over_one_alphabet(alloc, sources, raws, &rule)
}

/// The systems of raw ones over their alphabet, as they are to be read.
fn over_one_alphabet(
    alloc: Global,
    sources: &Sources<'_>,
    raws: &[RawLts],
    rule: &Rule,
) -> Result<SplitSystems, Stop>
    requires names { length sources.now.names.now ≡ length raws.now }
    ensures read { MatchResult result (λ s. IsSettledOf rule.now raws.now sources.now.divergence s.labels s.systems) (IsHalted (RefusesSettled rule.now raws.now sources.now.divergence (names_of sources.now.names.now))) }
    ensures sound { IfOk result (λ s. All IsSystem s.systems) }
{
    let SplitSystems { labels, systems } = sorted(alloc, raws, rule)?;
    let systems = settled(alloc, sources.divergence, sources.names, systems)?;
    Ok(SplitSystems { labels, systems })
}

/// The systems of raw ones over their alphabet.
fn sorted(alloc: Global, raws: &[RawLts], rule: &Rule) -> Result<SplitSystems, Stop>
    ensures split { MatchResult result (λ s. IsSplitOf rule.now raws.now s.labels s.systems) (IsHalted (RefusesLabels rule.now raws.now)) }
{
    match split(alloc, raws, rule) {
        Ok(systems) => Ok(systems),
        Err(SplitError::Memory) => Err(Stop::Memory),
        Err(error) => Err(Stop::Refused(Refusal::BadLabels { error })),
    }
}
