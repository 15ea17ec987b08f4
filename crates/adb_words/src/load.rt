//! Parsing of the words of a load.

ghost use Rattle.std.specs.Prelude.{◌≡◌, ◌≢◌, ◌∷◌, List, ℕ, [], Err, Some, None, IfOk};
ghost use Rattle.std.specs.Prelude.{IsOkAnd, codes, ok_or};
ghost use Rattle.clap.specs.Words.{app_of, first_value, found_of};
ghost use Rattle.adb_words.specs.Words.{gen_of, number_within, texts};
ghost use Rattle.adb_words.specs.Apps.{gen_app};

use crate::command::{Command, MAX_DIGITS, MAX_STREAMS, WordsError};
use crate::operands::{named_command, operands_of, with_word};
use adb_outside::read_number;
use clap::ArgMatches;
use std::alloc::{AllocError, Global};

/// The words of a load, as they were written.
#[derive(Clone, Copy, Drop)]
struct Load<'a> {
    seed: &'a str,
    streams: &'a str,
}

/// Parses the words after `gen`.
pub fn read_load(alloc: Global, words: &[String]) -> Result<Command, WordsError>
    ensures { result ≢ Err WordsError.OutOfMemory
        → result ≡ ok_or (gen_of (texts words.now)) WordsError.Usage }
{
    match load_words(alloc, words) {
        Ok(load) => load_of(load.seed, load.streams),
        Err(error) => Err(error),
    }
}

/// Returns the two words of a load. `Usage` means that the words are no load.
fn load_words<'a>(alloc: Global, words: &'a [String]) -> Result<Load<'a>, WordsError>
    ensures ok { IfOk result (λ load.
        texts words.entry.now ≡ load.seed.now ∷ load.streams.now ∷ []) }
    ensures refused { result ≡ Err WordsError.Usage
        → gen_of (texts words.entry.now) ≡ None }
{
    let Ok(command) = load_command(alloc) else {
        return Err(WordsError::OutOfMemory);
    };
    match operands_of(command, words) {
        Ok(matches) => load_in(&matches),
        Err(error) => Err(error),
    }
}

/// Returns the command that parses the two words.
fn load_command<'a>(alloc: Global) -> Result<clap::Command<'a>, AllocError>
    ensures { IfOk result (λ command. app_of command ≡ gen_app) }
{
    let command = with_word(alloc, named_command(alloc, "gen"), "seed")?;
    with_word(alloc, command, "streams")
}

/// Returns the two words that the command found.
fn load_in<'a>(matches: &ArgMatches<'a>) -> Result<Load<'a>, WordsError>
    ensures { (seed streams : List ℕ)
        → first_value (found_of matches.now) (codes "seed") ≡ Some seed
        → first_value (found_of matches.now) (codes "streams") ≡ Some streams
        → IsOkAnd result (λ load. (load.seed.now ≡ seed) × (load.streams.now ≡ streams)) }
{
    match (matches.get_str("seed"), matches.get_str("streams")) {
        (Some(seed), Some(streams)) => Ok(Load { seed, streams }),
        _ => Err(WordsError::Usage),
    }
}

/// Parses the two words of a load.
fn load_of(seed: &str, streams: &str) -> Result<Command, WordsError>
    ensures { result ≡ ok_or (gen_of (seed.now ∷ streams.now ∷ [])) WordsError.Usage }
{
    let Some(seed) = number_within(seed, 0, u64::MAX) else {
        return Err(WordsError::Usage);
    };
    let Some(streams) = number_within(streams, 1, u64::from(MAX_STREAMS)) else {
        return Err(WordsError::Usage);
    };
    Ok(Command::Gen {
        seed,
        streams: streams as u16,
    })
}

/// Parses a text as a number from `least` to `most`. Returns `None` if it is no such number.
pub fn number_within(text: &str, least: u64, most: u64) -> Option<u64>
    ensures { result ≡ number_within least most text.now }
{
    let number = read_number(text.as_bytes(), MAX_DIGITS)?;
    if number < u128::from(least) || number > u128::from(most) {
        return None;
    }
    Some(number as u64)
}
