//! Parsing of words without options, by a clap command.

ghost use Rattle.std.specs.Prelude.{◌≡◌, ◌≢◌, ◌⊎◌, [], true, false, Err, IfOk};
ghost use Rattle.adb_words.specs.Apps.{app_named, required};
ghost use Rattle.adb_words.specs.Words.{are_operands, is_operand, texts};
ghost use Rattle.clap.specs.Words.{HasMatchesOf, app_of, fault_of, is_simple_and_free, kind_of};
ghost use Rattle.clap.specs.Words.{with_rule};

use crate::command::WordsError;
use clap::error::ErrorKind;
use clap::{Arg, ArgMatches, Command, Error};
use std::alloc::{AllocError, Global};

/// Returns a command without arguments. It parses the words after its name.
pub fn named_command<'a>(alloc: Global, name: &'a str) -> Command<'a>
    ensures { app_of result ≡ app_named name.entry.now }
{
    Command::new(alloc, name).no_binary_name(true)
}

/// Adds one required word to a command.
pub fn with_word<'a>(
    alloc: Global,
    command: Command<'a>,
    name: &'a str,
) -> Result<Command<'a>, AllocError>
    ensures { IfOk result (λ more.
        app_of more ≡ with_rule (app_of command.entry) (required name.entry.now)) }
{
    command.arg(Arg::new(alloc, name).required(true))
}

/// Parses words with a command that has no options. A word that begins with a hyphen is refused,
/// including `--`, which the command itself would accept.
pub fn operands_of<'a>(
    command: Command<'a>,
    words: &'a [String],
) -> Result<ArgMatches<'a>, WordsError>
    requires { is_simple_and_free (app_of command) ≡ true }
    ensures found { IfOk result (HasMatchesOf (app_of command.entry) (texts words.entry.now)) }
    ensures taken { IfOk result (λ _. (are_operands words.entry.now ≡ true)
        × (fault_of (app_of command.entry) (texts words.entry.now) ≡ [])) }
    ensures refused { result ≡ Err WordsError.Usage
        → (are_operands words.entry.now ≡ false)
        ⊎ (fault_of (app_of command.entry) (texts words.entry.now) ≢ []) }
{
    if !are_operands(words) {
        return Err(WordsError::Usage);
    }
    matches_of(command, words)
}

/// Parses words with a command.
pub fn matches_of<'a>(
    command: Command<'a>,
    words: &'a [String],
) -> Result<ArgMatches<'a>, WordsError>
    requires { is_simple_and_free (app_of command) ≡ true }
    ensures found { IfOk result (HasMatchesOf (app_of command.entry) (texts words.entry.now)) }
    ensures taken { IfOk result (λ _.
        fault_of (app_of command.entry) (texts words.entry.now) ≡ []) }
    ensures refused { result ≡ Err WordsError.Usage
        → fault_of (app_of command.entry) (texts words.entry.now) ≢ [] }
{
    match command.try_get_matches_from(words) {
        Ok(matches) => Ok(matches),
        Err(error) => Err(error_of(error)),
    }
}

/// Returns whether no word begins with a hyphen.
fn are_operands(words: &[String]) -> bool
    ensures { result ≡ are_operands words.now }
{
    words.iter().all(|word| is_operand(word.as_str()))
}

/// Returns whether a word does not begin with a hyphen.
pub fn is_operand(word: &str) -> bool
    ensures { result ≡ is_operand word.now }
{
    word.as_bytes().first() != Some(&b'-')
}

/// Returns the error for words that a command refused.
fn error_of(error: Error) -> WordsError
    ensures usage { result ≡ WordsError.Usage → kind_of error ≢ ErrorKind.OutOfMemory }
{
    match error.kind() {
        ErrorKind::OutOfMemory => WordsError::OutOfMemory,
        _ => WordsError::Usage,
    }
}
