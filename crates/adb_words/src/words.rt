//! Parsing of a command from the words of a command line.

ghost use Rattle.std.specs.Prelude.{◌≡◌, ◌≢◌, Err, ok_or, option_map, true};
ghost use Rattle.adb_words.specs.Words.{command_of, bare_of, names_command, seed_of, texts};

use crate::command::{Command, WordsError};
use crate::load::read_load;
use crate::operands::{named_command, operands_of};
use crate::seed::read_seed;
use std::alloc::Global;

/// Parses a command from the words after the program's name.
///
/// - `Usage`: the words are no command.
/// - `OutOfMemory`: an allocation failed; the words may be no command. It is returned only if the
///   first word is the name of a command.
pub fn read_words(alloc: Global, words: &[String]) -> Result<Command, WordsError>
    ensures command { result ≢ Err WordsError.OutOfMemory
        → result ≡ ok_or (command_of (texts words.now)) WordsError.Usage }
    ensures named { result ≡ Err WordsError.OutOfMemory
        → names_command (texts words.now) ≡ true }
{
    let [name, words @ ..] = words else {
        return Err(WordsError::Usage);
    };
    match name.as_str() {
        "replay" => read_bare(alloc, "replay", Command::Replay, words),
        "check" => read_bare(alloc, "check", Command::Check, words),
        "gen" => read_load(alloc, words),
        "local" => read_local(alloc, words),
        "copy" => read_copy(alloc, words),
        _ => Err(WordsError::Usage),
    }
}

/// Parses the words after `local`.
fn read_local(alloc: Global, words: &[String]) -> Result<Command, WordsError>
    ensures { result ≢ Err WordsError.OutOfMemory
        → result ≡ ok_or (option_map Command.Local (seed_of (texts words.now))) WordsError.Usage }
{
    let seed = read_seed(alloc, "local", words)?;
    Ok(Command::Local { seed })
}

/// Parses the words after `copy`.
fn read_copy(alloc: Global, words: &[String]) -> Result<Command, WordsError>
    ensures { result ≢ Err WordsError.OutOfMemory
        → result ≡ ok_or (option_map Command.Copy (seed_of (texts words.now))) WordsError.Usage }
{
    let seed = read_seed(alloc, "copy", words)?;
    Ok(Command::Copy { seed })
}

/// Parses a command that is its name alone: no word may follow the name.
fn read_bare(
    alloc: Global,
    name: &str,
    command: Command,
    words: &[String],
) -> Result<Command, WordsError>
    ensures { result ≢ Err WordsError.OutOfMemory
        → result ≡ ok_or (bare_of command (texts words.now)) WordsError.Usage }
{
    match operands_of(named_command(alloc, name), words) {
        Ok(matches) => {
            drop(matches);
            Ok(command)
        }
        Err(error) => Err(error),
    }
}
