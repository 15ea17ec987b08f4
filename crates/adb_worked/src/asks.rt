//! Requests to a sync service, one a line.

ghost use Rattle.std.specs.Prelude.{◌≤◌};

use crate::answers::tell_answer;
use adb_files::Files;
use adb_outside::{Text, read_number};
use std::alloc::{AllocError, Global};

/// The request about a path.
#[derive(Clone, Copy, Drop)]
pub enum What {
    /// Push a file of this many bytes, with this time.
    Push { size: usize, mtime: u32 },
    Pull,
    Stat,
    List,
}

impl What {
    /// Returns the word with which its line begins.
    pub fn name(self) -> &'static [u8] {
        match self {
            What::Push { .. } => b"push ",
            What::Pull => b"pull ",
            What::Stat => b"stat ",
            What::List => b"list ",
        }
    }
}

/// One line of a text.
#[derive(Clone, Copy, Drop)]
pub struct Ask<'a> {
    pub what: What,
    pub path: &'a [u8],
}

/// The maximum number of bytes of a file that is pushed.
const MAX_PUSHED: u32 = 1_000_000;

/// Asks a sync service over files of its own the requests of a text's lines, with bytes in pieces
/// of at most `size` in both directions. Returns a line with the result of each answer.
pub fn told(alloc: Global, played: &[u8], size: usize) -> Result<Text, AllocError> {
    let mut files = Files::new(alloc);
    let mut told = Text::new(alloc);
    for line in played.split(|byte| *byte == b'\n') {
        if let Some(ask) = ask_of(alloc, line)? {
            tell_answer(alloc, &mut files, &ask, size, &mut told)?;
        }
    }
    Ok(told)
}

/// Parses a line: `push` with a path, a size and a time, or another word with a path.
fn ask_of(alloc: Global, line: &[u8]) -> Result<Option<Ask<'_>>, AllocError> {
    let words: Vec<&[u8]> = line.split(|byte| *byte == b' ').collect(alloc)?;
    Ok(match words.as_slice() {
        [name, path] => plain(name).map(|what| Ask { what, path }),
        [b"push", path, size, mtime] => push(size, mtime).map(|what| Ask { what, path }),
        _ => None,
    })
}

fn plain(name: &[u8]) -> Option<What> {
    match name {
        b"pull" => Some(What::Pull),
        b"stat" => Some(What::Stat),
        b"list" => Some(What::List),
        _ => None,
    }
}

fn push(size: &[u8], mtime: &[u8]) -> Option<What> {
    Some(What::Push {
        size: number(size)?.min(MAX_PUSHED) as usize,
        mtime: number(mtime)?,
    })
}

fn number(digits: &[u8]) -> Option<u32> {
    u32::try_from(read_number(digits, 10)?).ok()
}
