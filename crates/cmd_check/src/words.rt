//! The words after `check`.
ghost use Rattle.std.specs.Prelude.{◌≡◌, ◌<◌, ◌≤◌, map, IfOk};
ghost use Rattle.std.specs.String.{string_bytes};
ghost use Rattle.lts_base.specs.declared.limits.TheConstants.{MOST_PAIRS, MOST_MEMBERS};
ghost use Rattle.torx_words.specs.Accepted.{asked, IsAsked};
ghost use Rattle.cmd_check.specs.Asked.{check_from, check_of, check_shape};

use lts_base::limits::{MOST_MEMBERS, MOST_PAIRS, USUAL_MEMBERS, USUAL_PAIRS};
use lts_base::{Divergence, Mode};
use std::alloc::Global;
use torx_words::{
    DIVERGENCE, Form, Given, INPUTS, MARKS, NamedOption, Sorting, UIOCO, WordsError, flag_option,
    number_option, read_words,
};

/// The options of `check`.
static OPTIONS: [NamedOption<'static>; 8] = [
    MARKS,
    INPUTS,
    DIVERGENCE,
    UIOCO,
    flag_option!("enabled"),
    flag_option!("cert"),
    number_option!("pairs", 1, MOST_PAIRS as u64),
    number_option!("members", 1, MOST_MEMBERS),
];

/// What `check` is asked for.
#[derive(Clone, Copy, Debug)]
pub struct Check<'a> {
    /// The sorting of labels.
    pub sorting: Sorting<'a>,
    /// How divergent systems are read.
    pub divergence: Divergence,
    /// The conformance relation.
    pub mode: Mode,
    /// Whether the implementation has to be input-enabled.
    pub enabled: bool,
    /// Whether a certificate is to be printed.
    pub cert: bool,
    /// The most pairs.
    pub pairs: u32,
    /// The most members of the sets of each side.
    pub members: u64,
    /// The file of the specification.
    pub spec: &'a str,
    /// The file of the implementation.
    pub imp: &'a str,
}

/// What the words ask for.
pub fn read_check<'a>(alloc: Global, words: &'a [String]) -> Result<Check<'a>, WordsError>
    ensures asked { IsAsked (asked check_shape check_of (map string_bytes words.entry.now)) check_from result }
    ensures limits { IfOk result (λ c. (0 < c.pairs) × (c.pairs ≤ MOST_PAIRS) × (c.members ≤ MOST_MEMBERS)) }
{
    let given = read_words(alloc, &Form::plain(&OPTIONS, 2, 2), words)?;
    Ok(check_given(&given))
}

fn check_given<'a>(given: &Given<'a>) -> Check<'a>
    requires { given.now.shape ≡ check_shape }
    ensures asked { check_from result ≡ check_of given.now.reading }
    ensures limits { (0 < result.pairs) × (result.pairs ≤ MOST_PAIRS) × (result.members ≤ MOST_MEMBERS) }
{
    Check {
        sorting: given.sorting(),
        divergence: given.divergence(),
        mode: given.mode(),
        enabled: given.flag("enabled"),
        cert: given.flag("cert"),
        pairs: given.number("pairs", USUAL_PAIRS as u64) as u32,
        members: given.number("members", USUAL_MEMBERS),
        spec: given.required_file(0),
        imp: given.required_file(1),
    }
}
