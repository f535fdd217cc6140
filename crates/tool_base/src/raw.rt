//! The raw systems of files, and the rule that sorts their labels.
ghost use Rattle.std.specs.Prelude.{◌≡◌};
ghost use Rattle.edge_io.specs.Outside.{KeepsFiles};
ghost use Rattle.torx_words.specs.Named.{sorting_from};
ghost use Rattle.tool_base.specs.Given.{names_of, ReadsPair, ReadsRaws, ReadsRule};

use crate::load::{load_digested, load_list, load_system};
use crate::refusal::Stop;
use edge_io::Files;
use log_text::Digest;
use lts_base::{Listed, RawLts, Rule};
use std::alloc::Global;
use torx_words::Sorting;

/// The raw systems of the files, in their order.
pub(crate) fn raw_systems<F: Files>(
    alloc: Global,
    files: &mut F,
    names: &[&str],
) -> Result<Listed<RawLts>, Stop>
    ensures read { ReadsRaws (F.told files.old) (F.told files.new) (names_of names.now) result }
    ensures keeps { KeepsFiles (F.told files.old) (F.told files.new) }
{
    let mut raws = Listed::new(alloc);
    'names: for name in names {
        let raw = load_system(alloc, files, *name)?;
        raws.push(raw)?;
    }
    Ok(raws)
}

/// The raw systems of two files, in their order, and the digest of the first file.
#[derive(Drop)]
pub(crate) struct RawPair {
    /// The raw systems.
    pub(crate) raws: Listed<RawLts>,
    /// The digest of the bytes that the first one was read from.
    pub(crate) digest: Digest,
}

/// The raw systems of two files, and the digest of the first one.
pub(crate) fn raw_pair<F: Files>(
    alloc: Global,
    files: &mut F,
    first: &str,
    second: &str,
) -> Result<RawPair, Stop>
    ensures read { ReadsPair (F.told files.old) (F.told files.new) first.now second.now result }
    ensures keeps { KeepsFiles (F.told files.old) (F.told files.new) }
{
    let (raw, digest) = load_digested(alloc, files, first)?;
    let other = load_system(alloc, files, second)?;
    let mut raws = Listed::new(alloc);
    raws.push(raw)?;
    raws.push(other)?;
    Ok(RawPair { raws, digest })
}

/// The rule by which labels are sorted.
pub(crate) fn rule<F: Files>(
    alloc: Global,
    files: &mut F,
    sorting: Sorting<'_>,
) -> Result<Rule, Stop>
    ensures ruled { ReadsRule (F.told files.old) (F.told files.new) (sorting_from sorting.entry) result }
    ensures keeps { KeepsFiles (F.told files.old) (F.told files.new) }
{
    match sorting {
        Sorting::Prefix => Ok(Rule::Prefix),
        Sorting::Suffix => Ok(Rule::Suffix),
        Sorting::Listed(name) => Ok(Rule::Listed(load_list(alloc, files, name)?)),
    }
}
