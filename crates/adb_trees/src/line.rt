//! The meaning of a line of a tree's script.

ghost use Rattle.std.specs.Prelude.{◌≡◌};
ghost use Rattle.adb_trees.specs.Lines.{file_line, line_of, mode_of, mtime_of};
ghost use Rattle.adb_trees.specs.Lines.{number_within, size_of};

use adb_outside::read_number;
use adb_script::{MAX_MODE, MIN_MODE, Word, split_once};

/// The maximum number of decimal digits of a number.
pub const DIGITS: usize = 10;

/// The maximum number of bytes of a file.
pub const MAX_FILE: u32 = 16_777_216;

/// A file that a line names.
#[derive(Drop)]
pub struct FileLine<'a> {
    pub path: Word<'a>,
    pub mode: u32,
    pub mtime: u32,
    /// The number of bytes of the file.
    pub size: u32,
}

/// Parses a line without its newline. Returns `None` exactly if it names no file. It allocates
/// nothing.
pub fn read_line(text: &[u8]) -> Option<FileLine<'_>>
    ensures { result ≡ line_of text.now }
{
    let (path, rest) = split_once(text)?;
    let (mode, rest) = split_once(rest)?;
    let (mtime, size) = split_once(rest)?;
    match split_once(size) {
        Some(_) => None,
        None => file_line(path, mode_of(mode), mtime_of(mtime), size_of(size)),
    }
}

/// Returns a file at a path.
fn file_line<'a>(
    path: &'a [u8],
    mode: Option<u32>,
    mtime: Option<u32>,
    size: Option<u32>,
) -> Option<FileLine<'a>>
    ensures { result ≡ file_line path.now mode mtime size }
{
    let (mode, mtime, size) = (mode?, mtime?, size?);
    let path = Word::read(path)?;
    Some(FileLine {
        path,
        mode,
        mtime,
        size,
    })
}

fn mode_of(word: &[u8]) -> Option<u32>
    ensures { result ≡ mode_of word.now }
{
    number_within(word, MIN_MODE, MAX_MODE)
}

fn mtime_of(word: &[u8]) -> Option<u32>
    ensures { result ≡ mtime_of word.now }
{
    number_within(word, 0, u32::MAX)
}

fn size_of(word: &[u8]) -> Option<u32>
    ensures { result ≡ size_of word.now }
{
    number_within(word, 0, MAX_FILE)
}

/// Parses a word as a number of at most ten digits, from `least` to `most`.
fn number_within(word: &[u8], least: u32, most: u32) -> Option<u32>
    ensures { result ≡ number_within least most word.now }
{
    let number = read_number(word, DIGITS)?;
    if number < u128::from(least) || number > u128::from(most) {
        return None;
    }
    Some(number as u32)
}
