//! A simulation as a link: what is no input is refused, and the simulation stays where it was.
ghost use Rattle.std.specs.Prelude.{IfOk};
ghost use Rattle.tool_base.specs.Loaded.{IsOneOver};
ghost use Rattle.sim_serve.specs.Loaded.{CanServe, IsEnabled};

use crate::tests::contents;
use edge_io::{Heard, Link, MemFiles, Numbers};
use lts_base::{Divergence, Memory};
use lts_shape::missing_input;
use rand_core::SeedableRng;
use rand_pcg::Lcg64Xsh32;
use sim_core::SimLink;
use std::alloc::Global;
use std::process::Abort;
use std::test::Fail;
use tool_base::{OneSystem, one_system};
use torx_words::Sorting;

/// The system, where it is input-enabled.
fn enabled(alloc: Global, imp: OneSystem) -> Result<OneSystem, Memory>
    requires { IsOneOver imp }
    ensures { IfOk result (IsEnabled imp) }
{
    match missing_input(alloc, &imp.system)? {
        Some(_) => Err(Memory),
        None => Ok(imp),
    }
}

/// The system of the file that takes `?a` and then says `!x`.
fn system(alloc: Global) -> Result<OneSystem, Memory>
    ensures { IfOk result CanServe }
{
    let mut files = MemFiles::new(contents(alloc)?, Numbers::new(alloc));
    match one_system(
        alloc,
        &mut files,
        "RI.aut",
        Sorting::Prefix,
        Divergence::Refuse,
    ) {
        Ok(imp) => enabled(alloc, imp),
        Err(_) => Err(Memory),
    }
}

/// Whether a text is refused, and a look after it meets nothing.
fn is_refused<K: Link>(link: &mut K, text: &[u8]) -> bool {
    if link.send(text).is_ok() || !link.text().is_empty() {
        return false;
    }
    link.look() == Ok(Heard::Idle)
}

/// Whether the input is taken, and its output heard.
fn is_answered<K: Link>(link: &mut K, input: &[u8], output: &[u8]) -> bool {
    if link.send(input).is_err() || link.hear() != Ok(Heard::Line) {
        return false;
    }
    link.text() == output
}

/// Sends texts that are no inputs, and then one that is.
fn try_texts<R: Abort, K: Link>(rt: &R, link: &mut K) {
    for text in [b"?b".as_slice(), b"?", b"", b"!x", b"?a\r", b"?a\n", b"tau"] {
        assert!(rt; is_refused(link, text), "{text:?}");
    }
    assert!(rt; is_answered(link, b"?a", b"!x"));
}

#[test]
fn what_is_no_input_is_refused(rt: HostRuntime) -> Result<(), Fail> {
    let alloc = rt.alloc();
    let one = system(alloc)?;
    let rng = Lcg64Xsh32::seed_from_u64(0);
    let mut link = SimLink::new(alloc, &one.system, &one.labels, rng)?;
    try_texts(&rt, &mut link);
    Ok(())
}
