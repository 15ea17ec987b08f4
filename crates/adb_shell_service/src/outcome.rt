//! The output of a command, and its status.

ghost use Rattle.std.specs.Prelude.{◌≡◌, IfOk};
ghost use Rattle.adb_shell_service.specs.Commands.{done, refused, denied, bad_words};

use adb_files::FileError;
use adb_outside::Text;
use std::alloc::{AllocError, Global};

/// The output of a command, and its exit status.
#[derive(Drop)]
pub struct Outcome {
    pub stdout: Text,
    pub stderr: Text,
    pub status: u8,
}

/// Returns the outcome of a command that succeeded.
pub fn done(alloc: Global, stdout: Text) -> Outcome
    ensures { result ≡ done stdout }
{
    Outcome {
        stdout,
        stderr: Text::new(alloc),
        status: 0,
    }
}

/// Returns the outcome of a command that failed, with its reason.
pub fn refused(alloc: Global, word: &[u8], reason: &[u8], status: u8) -> Result<Outcome, AllocError>
    ensures { IfOk result (λ outcome. outcome ≡ refused word.now reason.now status) }
{
    let mut stderr = Text::from_slice(alloc, word)?;
    stderr.push_slice(b": ")?;
    stderr.push_slice(reason)?;
    stderr.push_slice(b"\n")?;
    Ok(Outcome {
        stdout: Text::new(alloc),
        stderr,
        status,
    })
}

/// Returns the outcome of a command that the files refuse.
pub fn denied(alloc: Global, word: &[u8], refusal: FileError) -> Result<Outcome, AllocError>
    ensures { IfOk result (λ outcome. outcome ≡ denied word.now refusal) }
{
    refused(alloc, word, refusal.text(), 1)
}

/// Returns the outcome of a command with wrong arguments.
pub fn bad_words(alloc: Global, word: &[u8]) -> Result<Outcome, AllocError>
    ensures { IfOk result (λ outcome. outcome ≡ bad_words word.now) }
{
    refused(alloc, word, b"bad words", 2)
}
