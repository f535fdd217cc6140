//! The words after `rehearse`.
ghost use Rattle.std.specs.Prelude.{◌≡◌, ◌≤◌, map, IfOk};
ghost use Rattle.std.specs.String.{string_bytes};
ghost use Rattle.torx_words.specs.Accepted.{asked, IsAsked};
ghost use Rattle.cmd_drive.specs.AskedRehearse.{rehearse_from, rehearse_of, rehearse_shape, IsRehearseInRange};

use crate::limits::{MOST_SESSION_MEMBERS, USUAL_PATIENCE, USUAL_SESSION_MEMBERS, USUAL_STEPS};
use log_text::limits::{MOST_PATIENCE, MOST_STEPS};
use lts_base::{Divergence, Mode};
use std::alloc::Global;
use torx_words::{
    DIVERGENCE, Form, Given, INPUTS, MARKS, NamedOption, Sorting, UIOCO, WordsError, number_option,
    read_words,
};

/// The options of `rehearse`.
static OPTIONS: [NamedOption<'static>; 8] = [
    MARKS,
    INPUTS,
    DIVERGENCE,
    UIOCO,
    number_option!("members", 1, MOST_SESSION_MEMBERS),
    number_option!("seed", 0, u64::MAX),
    number_option!("steps", 1, MOST_STEPS as u64),
    number_option!("patience", 1, MOST_PATIENCE as u64),
];

/// What `rehearse` is asked for.
#[derive(Clone, Copy, Debug)]
pub struct Rehearse<'a> {
    /// The sorting of labels.
    pub sorting: Sorting<'a>,
    /// How divergent systems are read.
    pub divergence: Divergence,
    /// The conformance relation.
    pub mode: Mode,
    /// The number of the generator that makes the choices; that of the implementation is the next.
    pub seed: u64,
    /// The most members of the sets of the session.
    pub members: u64,
    /// The most items.
    pub steps: u32,
    /// How many idle hearings in a row count as quiescence.
    pub patience: u32,
    /// The file of the specification.
    pub spec: &'a str,
    /// The file of the implementation.
    pub imp: &'a str,
}

/// What the words ask for.
pub fn read_rehearse<'a>(alloc: Global, words: &'a [String]) -> Result<Rehearse<'a>, WordsError>
    ensures asked { IsAsked (asked rehearse_shape rehearse_of (map string_bytes words.entry.now)) rehearse_from result }
    ensures range { IfOk result (λ q. IsRehearseInRange (rehearse_from q)) }
{
    let given = read_words(alloc, &Form::plain(&OPTIONS, 2, 2), words)?;
    Ok(rehearse_given(&given))
}

fn rehearse_given<'a>(given: &Given<'a>) -> Rehearse<'a>
    requires { given.now.shape ≡ rehearse_shape }
    ensures asked { rehearse_from result ≡ rehearse_of given.now.reading }
    ensures range { IsRehearseInRange (rehearse_from result) }
{
    Rehearse {
        sorting: given.sorting(),
        divergence: given.divergence(),
        mode: given.mode(),
        seed: given.number("seed", 0),
        members: given.number("members", USUAL_SESSION_MEMBERS),
        steps: given.number("steps", USUAL_STEPS as u64) as u32,
        patience: given.number("patience", USUAL_PATIENCE as u64) as u32,
        spec: given.required_file(0),
        imp: given.required_file(1),
    }
}
