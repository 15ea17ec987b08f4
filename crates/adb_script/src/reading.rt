//! Parsing of lines.

ghost use Rattle.std.specs.Prelude.{◌≡◌, ◌∷◌, [], MatchOption, option_map, position};
ghost use Rattle.adb_script.specs.Lines.{count_line, count_of, command_line, echo_line, line_of};
ghost use Rattle.adb_script.specs.Lines.{is_space, line_of_words, path_line, push_line, seen, words_of};

use crate::line::{
    COUNT_DIGITS, EchoLine, MAX_ECHO_STREAMS, MAX_ECHOED, MAX_PUSHED, ScriptLine, SessionLine,
};
use crate::word::Word;
use adb_outside::read_number;

/// Parses a line without its newline. Returns `None` exactly if it is no line of a script. It
/// allocates nothing.
pub fn read_line(text: &[u8]) -> Option<ScriptLine<'_>>
    ensures { option_map seen result ≡ line_of text.now }
{
    if text.starts_with(b"shell ") {
        return command_line(&text[6..]);
    }
    read_words(text)
}

/// Parses a line of words.
fn read_words(text: &[u8]) -> Option<ScriptLine<'_>>
    ensures { option_map seen result ≡ line_of_words (words_of text.now) }
{
    let (name, rest) = split_once(text)?;
    let Some((word, count)) = split_once(rest) else {
        return path_line(name, rest);
    };
    match split_once(count) {
        Some(_) => None,
        None => count_line(name, word, count),
    }
}

/// Splits a text at its first space. Returns `None` exactly if it has no space.
pub fn split_once(text: &[u8]) -> Option<(&[u8], &[u8])>
    ensures { MatchOption result
        (words_of text.now ≡ text.now ∷ [])
        (λ parts. words_of text.now ≡ parts.0.now ∷ words_of parts.1.now) }
{
    let space = space_in(text)?;
    Some((&text[..space], &text[space + 1..]))
}

/// Returns the index of the first space.
fn space_in(text: &[u8]) -> Option<usize>
    ensures { result ≡ position is_space text.now }
{
    text.iter().position(|byte| *byte == b' ')
}

/// Returns a line with a command.
fn command_line(command: &[u8]) -> Option<ScriptLine<'_>>
    ensures { option_map seen result ≡ command_line command.now }
{
    let command = Word::read(command)?;
    Some(ScriptLine::Session(SessionLine::Shell { command }))
}

/// Returns a line with a name and a path.
fn path_line<'a>(name: &[u8], path: &'a [u8]) -> Option<ScriptLine<'a>>
    ensures { option_map seen result ≡ path_line name.now path.now }
{
    let path = Word::read(path)?;
    if name == b"pull".as_slice() {
        return Some(ScriptLine::Session(SessionLine::Pull { path }));
    }
    if name == b"stat".as_slice() {
        return Some(ScriptLine::Session(SessionLine::Stat { path }));
    }
    if name == b"list".as_slice() {
        return Some(ScriptLine::Session(SessionLine::List { path }));
    }
    None
}

/// Returns a line with a name, a word and a count.
fn count_line<'a>(name: &[u8], word: &'a [u8], count: &[u8]) -> Option<ScriptLine<'a>>
    ensures { option_map seen result ≡ count_line name.now word.now count.now }
{
    if name == b"push".as_slice() {
        return push_line(word, count_of(count));
    }
    if name == b"echo".as_slice() {
        return echo_line(count_of(word), count_of(count));
    }
    None
}

/// Returns a push of `size` bytes.
fn push_line(path: &[u8], size: Option<u128>) -> Option<ScriptLine<'_>>
    ensures { option_map seen result ≡ push_line path.now size }
{
    let size = size?;
    let path = Word::read(path)?;
    if size > u128::from(MAX_PUSHED) {
        return None;
    }
    let size = size as u32;
    Some(ScriptLine::Session(SessionLine::Push { path, size }))
}

/// Returns an echo with these numbers of streams and bytes.
fn echo_line<'a>(streams: Option<u128>, size: Option<u128>) -> Option<ScriptLine<'a>>
    ensures { option_map seen result ≡ echo_line streams size }
{
    let (streams, size) = (streams?, size?);
    let most = u128::from(MAX_ECHOED);
    if streams == 0 || streams > u128::from(MAX_ECHO_STREAMS) {
        return None;
    }
    if size > most || streams * size > most {
        return None;
    }
    Some(ScriptLine::Echo(EchoLine {
        streams: streams as u32,
        size: size as u32,
    }))
}

/// Parses a count.
fn count_of(text: &[u8]) -> Option<u128>
    ensures { result ≡ count_of text.now }
{
    read_number(text, COUNT_DIGITS)
}
