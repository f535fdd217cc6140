//! The words after `drive`.
ghost use Rattle.std.specs.Prelude.{◌≡◌, ◌≤◌, map, IfOk};
ghost use Rattle.std.specs.String.{string_bytes};
ghost use Rattle.torx_words.specs.Accepted.{asked, IsAsked};
ghost use Rattle.cmd_drive.specs.Asked.{drive_from, drive_of, drive_shape, guide_from, guide_of, IsInRange};

use crate::limits::{
    MOST_SESSION_MEMBERS, MOST_TICK, USUAL_PATIENCE, USUAL_SESSION_MEMBERS, USUAL_STEPS, USUAL_TICK,
};
use log_text::limits::{MOST_PATIENCE, MOST_STEPS};
use lts_base::{Divergence, Mode};
use std::alloc::Global;
use torx_words::{
    DIVERGENCE, Form, Given, INPUTS, MARKS, NamedOption, Sorting, UIOCO, WordsError, name_option,
    number_option, read_words,
};

/// The options of `drive`.
static OPTIONS: [NamedOption<'static>; 11] = [
    MARKS,
    INPUTS,
    DIVERGENCE,
    UIOCO,
    number_option!("members", 1, MOST_SESSION_MEMBERS),
    number_option!("seed", 0, u64::MAX),
    name_option!("script"),
    name_option!("goal"),
    number_option!("steps", 1, MOST_STEPS as u64),
    number_option!("patience", 1, MOST_PATIENCE as u64),
    number_option!("tick", 1, MOST_TICK as u64),
];

/// The options of which no two may stand together.
static CLASHES: [(&'static str, &'static str); 3] = [
    ("seed", "script"),
    ("seed", "goal"),
    ("script", "goal"),
];

/// What guides the choices.
#[derive(Clone, Copy, Debug)]
pub enum Guidance<'a> {
    /// A generator made from this number.
    Seed(u64),
    /// The script in this file.
    Script(&'a str),
    /// The trace in this file.
    Goal(&'a str),
}

/// What `drive` is asked for.
#[derive(Clone, Copy, Debug)]
pub struct Drive<'a> {
    /// The sorting of labels.
    pub sorting: Sorting<'a>,
    /// How divergent systems are read.
    pub divergence: Divergence,
    /// The conformance relation.
    pub mode: Mode,
    /// What guides the choices.
    pub guidance: Guidance<'a>,
    /// The most members of the sets of the session.
    pub members: u64,
    /// The most items.
    pub steps: u32,
    /// How many idle reads in a row count as quiescence.
    pub patience: u32,
    /// The tick of the link, in milliseconds.
    pub tick: u32,
    /// The file of the specification.
    pub spec: &'a str,
    /// The address of the program under test.
    pub address: &'a str,
}

/// What the words ask for.
pub fn read_drive<'a>(alloc: Global, words: &'a [String]) -> Result<Drive<'a>, WordsError>
    ensures asked { IsAsked (asked drive_shape drive_of (map string_bytes words.entry.now)) drive_from result }
    ensures range { IfOk result (λ q. IsInRange (drive_from q)) }
{
    let form = Form {
        options: &OPTIONS,
        required: &[],
        clashes: &CLASHES,
        least: 2,
        most: 2,
    };
    let given = read_words(alloc, &form, words)?;
    Ok(drive_given(&given))
}

fn drive_given<'a>(given: &Given<'a>) -> Drive<'a>
    requires { given.now.shape ≡ drive_shape }
    ensures asked { drive_from result ≡ drive_of given.now.reading }
    ensures range { IsInRange (drive_from result) }
{
    Drive {
        sorting: given.sorting(),
        divergence: given.divergence(),
        mode: given.mode(),
        guidance: guidance_given(given),
        members: given.number("members", USUAL_SESSION_MEMBERS),
        steps: given.number("steps", USUAL_STEPS as u64) as u32,
        patience: given.number("patience", USUAL_PATIENCE as u64) as u32,
        tick: given.number("tick", USUAL_TICK as u64) as u32,
        spec: given.required_file(0),
        address: given.required_file(1),
    }
}

fn guidance_given<'a>(given: &Given<'a>) -> Guidance<'a>
    ensures { guide_from result ≡ guide_of given.now.reading }
{
    match (given.value("script"), given.value("goal")) {
        (Some(script), _) => Guidance::Script(script),
        (None, Some(goal)) => Guidance::Goal(goal),
        (None, None) => Guidance::Seed(given.number("seed", 0)),
    }
}
