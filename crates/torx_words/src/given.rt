//! What words after a command give.
ghost use Rattle.std.specs.Prelude.{◌≡◌, ◌<◌, ◌≤◌, true, map, length, IfOk, None, Some};
ghost use Rattle.std.specs.List.{slice_get};
ghost use Rattle.std.specs.Option.{option_map};
ghost use Rattle.std.specs.String.{string_bytes};
ghost use Rattle.torx_words.specs.Accepted.{IsAsked, accepted, known_of};
ghost use Rattle.torx_words.specs.Form.{is_table, stands, value_of};
ghost use Rattle.torx_words.specs.Meaning.{divergence_by, divergence_of, file_at, mode_of, number_of as number_by, range_of, sorting_by, sorting_of};
ghost use Rattle.torx_words.specs.Named.{shape_from, sorting_from};

use crate::asked::Sorting;
use crate::checks::refusal;
use crate::form::Form;
use crate::kind::WordsError;
use crate::parse::{Parsed, parse_words};
use crate::values::number_of;
use lts_base::{Divergence, Mode};
use std::alloc::Global;
use std::marker::Model;

/// What the words after a command give, which the form accepts.
#[derive(Drop)]
pub struct Given<'a> {
    form: Form<'a>,
    parsed: Parsed<'a>,
}

impl<'a> Model for Given<'a> {
    ghost use Rattle.std.specs.Prelude.{◌≡◌, None};
    ghost use Rattle.torx_words.specs.Accepted.{refusal_of};
    ghost use Rattle.torx_words.specs.Named.{GivenWords, shape_from};

    ghost Value = { GivenWords };

    ghost view = { λ g. record { shape = shape_from g.form; reading = g.parsed.reading } };

    ghost invariant = { λ g. refusal_of (shape_from g.form) g.parsed.reading ≡ None };
}

/// What the words after a command give, or why they are refused.
pub fn read_words<'a>(
    alloc: Global,
    form: &Form<'a>,
    words: &'a [String],
) -> Result<Given<'a>, WordsError>
    requires { is_table (map known_of (shape_from form.now).options) ≡ true }
    ensures shape { IfOk result (λ g. g.shape ≡ shape_from form.now) }
    ensures given { IsAsked (accepted (shape_from form.now) (map string_bytes words.entry.now)) (λ g. g.reading) result }
{
    let parsed = parse_words(alloc, form.options, words)?;
    match refusal(form, &parsed) {
        Some(kind) => Err(WordsError::Usage(kind)),
        None => Ok(Given {
            form: *form,
            parsed,
        }),
    }
}

impl<'a> Given<'a> {
    /// The files, in the order of the words.
    pub fn files(&self) -> &[&'a str]
        ensures files { map (λ (w : _). w.now) result.now ≡ self.now.reading.files }
        ensures least { self.now.shape.least ≤ length result.now }
        ensures most { length result.now ≤ self.now.shape.most }
    {
        self.parsed.files()
    }

    /// A file that must stand, by its place, which counts from 0.
    pub fn required_file(&self, place: usize) -> &'a str
        requires { place < self.now.shape.least }
        ensures { result.now ≡ file_at place self.now.reading }
    {
        self.files()[place]
    }

    /// The file at this place, which counts from 0, where it stands.
    pub fn file(&self, place: usize) -> Option<&'a str>
        ensures { option_map (λ (w : _). w.now) result ≡ slice_get self.now.reading.files place }
    {
        self.parsed.files().get(place).copied()
    }

    /// Whether an option stands.
    pub fn flag(&self, name: &str) -> bool
        ensures { result ≡ stands name.now self.now.reading }
    {
        self.parsed.stands(name)
    }

    /// The value of an option, where it stands.
    pub fn value(&self, name: &str) -> Option<&'a str>
        ensures { option_map (λ (w : _). w.now) result ≡ value_of name.now self.now.reading }
    {
        self.parsed.value(name)
    }

    /// The number of an option; without the option it is `usual`.
    pub fn number(&self, name: &str, usual: u64) -> u64
        ensures value { result ≡ number_by name.now usual self.now.reading }
        ensures low { (range_of name.now usual self.now.shape).0 ≤ result }
        ensures high { result ≤ (range_of name.now usual self.now.shape).1 }
    {
        number_in(&self.parsed, name, usual)
    }

    /// How labels are sorted; by the mark at their front unless the words say else.
    pub fn sorting(&self) -> Sorting<'a>
        ensures { sorting_from result ≡ sorting_of self.now.reading }
    {
        match (self.parsed.value("marks"), self.parsed.value("inputs")) {
            (_, Some(file)) => Sorting::Listed(file),
            (Some(mark), None) => by_mark(mark),
            (None, None) => Sorting::Prefix,
        }
    }

    /// The conformance relation; ioco unless the flag `uioco` stands.
    pub fn mode(&self) -> Mode
        ensures { result ≡ mode_of self.now.reading }
    {
        if self.parsed.stands("uioco") {
            Mode::Uioco
        } else {
            Mode::Ioco
        }
    }

    /// How divergent systems are read; they are refused unless the words say else.
    pub fn divergence(&self) -> Divergence
        ensures { result ≡ divergence_of self.now.reading }
    {
        match self.parsed.value("divergence") {
            Some(text) => by_word(text),
            None => Divergence::Refuse,
        }
    }
}

/// The number of an option; without the option it is `usual`.
fn number_in(parsed: &Parsed<'_>, name: &str, usual: u64) -> u64
    ensures { result ≡ number_by name.now usual parsed.now.reading }
{
    match parsed.value(name) {
        Some(text) => number_of(text).unwrap_or(usual),
        None => usual,
    }
}

/// The sorting that a value of `--marks` asks for.
fn by_mark<'a>(mark: &str) -> Sorting<'a>
    ensures { sorting_from result ≡ sorting_by (Some mark.now) None }
{
    if mark == "suffix" {
        Sorting::Suffix
    } else {
        Sorting::Prefix
    }
}

/// The reading of divergent systems that a value of `--divergence` asks for.
fn by_word(word: &str) -> Divergence
    ensures { result ≡ divergence_by (Some word.now) }
{
    if word == "quiet" {
        Divergence::Quiet
    } else {
        Divergence::Refuse
    }
}
