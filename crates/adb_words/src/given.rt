//! Parsing of words with options and operands, by a clap command.

ghost use Rattle.std.specs.Prelude.{◌≡◌, ◌≢◌, ◌⊎◌, [], true, false, Err, IfOk};
ghost use Rattle.clap.specs.Words.{HasMatchesOf, app_of, fault_of, found_of, is_simple_and_free};
ghost use Rattle.clap.specs.Words.{with_rule};
ghost use Rattle.adb_words.specs.Apps.{bare_app, flag_rule, operand_rule, option_rule, port_only};
ghost use Rattle.adb_words.specs.Found.{are_known, equals_at, has_name, is_known, is_known_at};
ghost use Rattle.adb_words.specs.Found.{is_known_option, texts_in, values_found};
ghost use Rattle.adb_words.specs.Given.{is_one_of};
ghost use Rattle.adb_words.specs.Words.{texts};

use crate::command::WordsError;
use crate::operands::{is_operand, matches_of, named_command};
use clap::{Arg, ArgAction, ArgMatches, Command};
use std::alloc::{AllocError, Global};

/// Returns a command without arguments and without help. It parses the words after its name.
pub fn bare_command<'a>(alloc: Global, name: &'a str) -> Command<'a>
    ensures { app_of result ≡ bare_app name.entry.now }
{
    named_command(alloc, name).disable_help_flag(true)
}

/// Returns a command with a port as its only argument.
pub fn port_only<'a>(alloc: Global, name: &'a str) -> Result<Command<'a>, AllocError>
    ensures { IfOk result (λ command. app_of command ≡ port_only name.entry.now) }
{
    with_option(alloc, bare_command(alloc, name), "port")
}

/// Adds an option with a value to a command. Each use of the option adds a value.
pub fn with_option<'a>(
    alloc: Global,
    command: Command<'a>,
    name: &'a str,
) -> Result<Command<'a>, AllocError>
    ensures { IfOk result (λ more.
        app_of more ≡ with_rule (app_of command.entry) (option_rule name.entry.now)) }
{
    command.arg(Arg::new(alloc, name).long(name).action(ArgAction::Append))
}

/// Adds an option without a value to a command. Each use of the option adds an empty value, so that
/// the uses can be counted.
pub fn with_flag<'a>(
    alloc: Global,
    command: Command<'a>,
    name: &'a str,
) -> Result<Command<'a>, AllocError>
    ensures { IfOk result (λ more.
        app_of more ≡ with_rule (app_of command.entry) (flag_rule name.entry.now)) }
{
    let flag = Arg::new(alloc, name).long(name).action(ArgAction::Append);
    command.arg(flag.num_args(0).default_missing_value(""))
}

/// Adds operands to a command. All of them are values of one name.
pub fn with_operands<'a>(
    alloc: Global,
    command: Command<'a>,
    name: &'a str,
) -> Result<Command<'a>, AllocError>
    ensures { IfOk result (λ more.
        app_of more ≡ with_rule (app_of command.entry) (operand_rule name.entry.now)) }
{
    command.arg(Arg::new(alloc, name).action(ArgAction::Append))
}

/// Parses words with a command. Each word must be an operand or one of these options and flags. Any
/// other word that begins with a hyphen is refused, including `--`, which the command itself would
/// accept.
pub fn given_of<'a>(
    command: Command<'a>,
    options: &[&str],
    flags: &[&str],
    words: &'a [String],
) -> Result<ArgMatches<'a>, WordsError>
    requires { is_simple_and_free (app_of command) ≡ true }
    ensures found { IfOk result (HasMatchesOf (app_of command.entry) (texts words.entry.now)) }
    ensures taken { IfOk result (λ _.
        (are_known (texts_in options.now) (texts_in flags.now) words.entry.now ≡ true)
        × (fault_of (app_of command.entry) (texts words.entry.now) ≡ [])) }
    ensures refused { result ≡ Err WordsError.Usage
        → (are_known (texts_in options.now) (texts_in flags.now) words.entry.now ≡ false)
        ⊎ (fault_of (app_of command.entry) (texts words.entry.now) ≢ []) }
{
    if !are_known(words, options, flags) {
        return Err(WordsError::Usage);
    }
    matches_of(command, words)
}

/// Returns the values of a name in the order of the words, or `none` if the name has no value.
pub fn values_in<'m, 'a>(
    matches: &'m ArgMatches<'a>,
    name: &str,
    none: &'m [&'a str],
) -> &'m [&'a str]
    requires { none.now ≡ [] }
    ensures { texts_in result.now ≡ values_found name.now (found_of matches.now) }
{
    matches.get_raw(name).unwrap_or(none)
}

/// Returns whether each word is an operand or one of these options and flags.
fn are_known(words: &[String], options: &[&str], flags: &[&str]) -> bool
    ensures { result ≡ are_known (texts_in options.now) (texts_in flags.now) words.now }
{
    words
        .iter()
        .all(|word| is_known(word.as_str(), options, flags))
}

/// Returns whether a word is an operand or one of these options and flags.
fn is_known(word: &str, options: &[&str], flags: &[&str]) -> bool
    ensures { result ≡ is_known (texts_in options.now) (texts_in flags.now) word.now }
{
    is_operand(word) || is_known_option(word.as_bytes(), options, flags)
}

/// Returns whether a word is one of these options and flags.
fn is_known_option(word: &[u8], options: &[&str], flags: &[&str]) -> bool
    ensures { result ≡ is_known_option (texts_in options.now) (texts_in flags.now) word.now }
{
    match word {
        [b'-', b'-', text @ ..] => is_known_at(text, equals_at(text), options, flags),
        _ => false,
    }
}

/// Returns whether a text, which follows the two hyphens of a word, is one of these options and
/// flags. `equals` is the index of its first `=`.
fn is_known_at(text: &[u8], equals: Option<usize>, options: &[&str], flags: &[&str]) -> bool
    requires { equals ≡ equals_at text.now }
    ensures { result ≡ is_known_at (texts_in options.now) (texts_in flags.now) text.now equals }
{
    match equals {
        Some(at) => is_one_of(options, &text[..at]),
        None => is_one_of(options, text) || is_one_of(flags, text),
    }
}

/// Returns the index of the first `=`.
fn equals_at(text: &[u8]) -> Option<usize>
    ensures { result ≡ equals_at text.now }
{
    text.iter().position(|byte| *byte == b'=')
}

/// Returns whether a text is one of these names.
fn is_one_of(names: &[&str], text: &[u8]) -> bool
    ensures { result ≡ is_one_of (texts_in names.now) text.now }
{
    has_name(names, text)
}

/// Returns whether a text is one of these names, given as they are held.
fn has_name(names: &[&str], text: &[u8]) -> bool
    ensures { result ≡ has_name names.now text.now }
{
    names.iter().any(|name| name.as_bytes() == text)
}
