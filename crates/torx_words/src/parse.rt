//! Reads the words after a command with a parser of command lines.
ghost use Rattle.std.specs.Prelude.{◌≡◌, true, false, map, IfOk};
ghost use Rattle.std.specs.Option.{option_map};
ghost use Rattle.std.specs.String.{string_bytes};
ghost use Rattle.clap.specs.Words.{app_of, rule_of};
ghost use Rattle.torx_words.specs.Accepted.{is_valued, known_of};
ghost use Rattle.torx_words.specs.Form.{has_flag, has_valued, is_table, stands as stands_in, value_of};
ghost use Rattle.torx_words.specs.Taken.{IsReadAs, IsWordsUnless, told_of};
ghost use Rattle.torx_words.specs.Parsed.{app_for, bare_app, files_rule, flag_known, rule_for, valued_known};
ghost use Rattle.torx_words.specs.Named.{entry_from};

use crate::form::{NamedOption, ValueKind};
use crate::kind::{UsageKind, WordsError};
use clap::error::ErrorKind;
use clap::{Arg, ArgAction, ArgMatches, Command};
use std::alloc::{AllocError, Global};
use std::marker::Model;

/// The name under which the parser keeps the files.
const FILES: &str = "file";

/// What words give by a table of options, with any number of files. The words say what was read.
#[derive(Drop)]
pub(crate) struct Parsed<'a> {
    options: &'a [NamedOption<'a>],
    words: &'a [String],
    matches: ArgMatches<'a>,
}

impl<'a> Model for Parsed<'a> {
    ghost use Rattle.std.specs.Prelude.{map};
    ghost use Rattle.std.specs.String.{string_bytes};
    ghost use Rattle.torx_words.specs.Accepted.{known_of};
    ghost use Rattle.torx_words.specs.Named.{entry_from};
    ghost use Rattle.torx_words.specs.Taken.{GivesOnce, ReadWords, reading_from, told_of};

    ghost Value = { ReadWords };

    ghost view = { λ p. record { options = map entry_from p.options.now; reading = reading_from p.options.now p.words.now } };

    ghost invariant = { λ p. GivesOnce (map known_of (map entry_from p.options.now)) (map string_bytes p.words.now) (told_of p.matches) };
}

impl<'a> Parsed<'a> {
    /// The value of an option, where it stands.
    pub(crate) fn value(&self, name: &str) -> Option<&'a str>
        ensures { option_map (λ (w : _). w.now) result ≡ value_of name.now self.now.reading }
    {
        if has_value(self.options, name) {
            self.matches.get_str(name)
        } else {
            None
        }
    }

    /// Whether an option stands.
    pub(crate) fn stands(&self, name: &str) -> bool
        ensures { result ≡ stands_in name.now self.now.reading }
    {
        if is_flag(self.options, name) {
            told_flag(&self.matches, name)
        } else {
            self.value(name).is_some()
        }
    }

    /// The files, in the order of the words.
    pub(crate) fn files(&self) -> &[&'a str]
        ensures { map (λ (w : _). w.now) result.now ≡ self.now.reading.files }
    {
        told_files(&self.matches)
    }
}

/// Whether the flag stands.
fn told_flag(matches: &ArgMatches<'_>, name: &str) -> bool
    ensures { result ≡ (told_of matches.now).flag name.now }
{
    match matches.get_str(name) {
        Some(text) => text == "true",
        None => false,
    }
}

/// The files.
fn told_files<'m, 'a>(matches: &'m ArgMatches<'a>) -> &'m [&'a str]
    ensures { map (λ (w : _). w.now) result.now ≡ (told_of matches.now).files }
{
    matches.get_strs(FILES).unwrap_or_default()
}

/// Whether an option of this name stands in the table, with a value.
fn has_value(options: &[NamedOption<'_>], name: &str) -> bool
    ensures { result ≡ has_valued name.now (map known_of (map entry_from options.now)) }
{
    for option in options {
        if takes_value(option.kind) && option.name == name {
            return true;
        }
    }
    false
}

/// Whether a flag of this name stands in the table.
fn is_flag(options: &[NamedOption<'_>], name: &str) -> bool
    ensures { result ≡ has_flag name.now (map known_of (map entry_from options.now)) }
{
    for option in options {
        if !takes_value(option.kind) && option.name == name {
            return true;
        }
    }
    false
}

/// Whether a value follows an option of this kind.
fn takes_value(kind: ValueKind) -> bool
    ensures { result ≡ is_valued kind }
{
    match kind {
        ValueKind::Flag => false,
        ValueKind::Marks => true,
        ValueKind::Divergence => true,
        ValueKind::Name => true,
        ValueKind::Number { .. } => true,
    }
}

/// What the words give, with any number of files.
pub(crate) fn parse_words<'a>(
    alloc: Global,
    options: &'a [NamedOption<'a>],
    words: &'a [String],
) -> Result<Parsed<'a>, WordsError>
    requires { is_table (map known_of (map entry_from options.now)) ≡ true }
    ensures options { IfOk result (λ p. p.options ≡ map entry_from options.now) }
    ensures read { IsReadAs (map entry_from options.now) (map string_bytes words.entry.now) result }
{
    let command = command_for(alloc, options)?;
    match command.try_get_matches_from(words) {
        Ok(matches) => Ok(Parsed {
            options,
            words,
            matches,
        }),
        Err(error) => Err(refused(error.kind())),
    }
}

/// Every refusal of the parser but want of memory says that the words aren't in the form.
fn refused(kind: ErrorKind) -> WordsError
    ensures { IsWordsUnless (kind ≡ ErrorKind.OutOfMemory) result }
{
    match kind {
        ErrorKind::OutOfMemory => WordsError::Memory,
        _ => WordsError::Usage(UsageKind::Words),
    }
}

/// The command with these options and any number of files.
fn command_for<'a>(alloc: Global, options: &'a [NamedOption<'a>]) -> Result<Command<'a>, AllocError>
    ensures { IfOk result (λ c. app_of c ≡ app_for (map known_of (map entry_from options.entry.now))) }
{
    let mut command = bare(alloc);
    for option in options {
        command = command.arg(argument(alloc, *option))?;
    }
    command.arg(files(alloc))
}

/// A command without options: the words are all after its name, and there is no help.
fn bare<'a>(alloc: Global) -> Command<'a>
    ensures { app_of result ≡ bare_app }
{
    Command::new(alloc, "command")
        .no_binary_name(true)
        .disable_help_flag(true)
}

/// The argument that takes the files.
fn files<'a>(alloc: Global) -> Arg<'a>
    ensures rule { rule_of result ≡ files_rule }
    ensures own { result.global ≡ false }
{
    Arg::new(alloc, FILES).action(ArgAction::Append)
}

/// The option, as the parser takes it.
fn argument<'a>(alloc: Global, option: NamedOption<'a>) -> Arg<'a>
    ensures rule { rule_of result ≡ rule_for (known_of (entry_from option.entry)) }
    ensures own { result.global ≡ false }
{
    if takes_value(option.kind) {
        valued(alloc, option.name)
    } else {
        flag(alloc, option.name)
    }
}

/// An option that a value follows.
fn valued<'a>(alloc: Global, name: &'a str) -> Arg<'a>
    ensures rule { rule_of result ≡ rule_for (valued_known name.entry.now) }
    ensures own { result.global ≡ false }
{
    Arg::new(alloc, name).long(name).action(ArgAction::Set)
}

/// An option without a value.
fn flag<'a>(alloc: Global, name: &'a str) -> Arg<'a>
    ensures rule { rule_of result ≡ rule_for (flag_known name.entry.now) }
    ensures own { result.global ≡ false }
{
    Arg::new(alloc, name).long(name).action(ArgAction::SetTrue)
}
