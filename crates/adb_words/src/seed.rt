//! Parsing of the one word of a command that takes a seed.

ghost use Rattle.std.specs.Prelude.{◌≡◌, ◌≢◌, ◌∷◌, List, ℕ, [], Err, Some, None, IfOk};
ghost use Rattle.std.specs.Prelude.{IsOkAnd, codes, ok_or};
ghost use Rattle.clap.specs.Words.{app_of, first_value, found_of};
ghost use Rattle.adb_words.specs.Words.{seed_of, texts};
ghost use Rattle.adb_words.specs.Apps.{seed_app};

use crate::command::WordsError;
use crate::load::number_within;
use crate::operands::{named_command, operands_of, with_word};
use clap::ArgMatches;
use std::alloc::{AllocError, Global};

/// Parses the seed from the words after a command's name.
pub fn read_seed(alloc: Global, name: &str, words: &[String]) -> Result<u64, WordsError>
    ensures { result ≢ Err WordsError.OutOfMemory
        → result ≡ ok_or (seed_of (texts words.now)) WordsError.Usage }
{
    match seed_word(alloc, name, words) {
        Ok(seed) => number_within(seed, 0, u64::MAX).ok_or(WordsError::Usage),
        Err(error) => Err(error),
    }
}

/// Returns the word if there is exactly one. `Usage` means that the words are no seed.
fn seed_word<'a>(alloc: Global, name: &'a str, words: &'a [String]) -> Result<&'a str, WordsError>
    ensures ok { IfOk result (λ seed. texts words.entry.now ≡ seed.now ∷ []) }
    ensures refused { result ≡ Err WordsError.Usage → seed_of (texts words.entry.now) ≡ None }
{
    let Ok(command) = seed_command(alloc, name) else {
        return Err(WordsError::OutOfMemory);
    };
    match operands_of(command, words) {
        Ok(matches) => seed_in(&matches),
        Err(error) => Err(error),
    }
}

/// Returns the command that parses the word.
fn seed_command<'a>(alloc: Global, name: &'a str) -> Result<clap::Command<'a>, AllocError>
    ensures { IfOk result (λ command. app_of command ≡ seed_app name.entry.now) }
{
    with_word(alloc, named_command(alloc, name), "seed")
}

/// Returns the word that the command found.
fn seed_in<'a>(matches: &ArgMatches<'a>) -> Result<&'a str, WordsError>
    ensures { (seed : List ℕ) → first_value (found_of matches.now) (codes "seed") ≡ Some seed
        → IsOkAnd result (λ word. word.now ≡ seed) }
{
    matches.get_str("seed").ok_or(WordsError::Usage)
}
