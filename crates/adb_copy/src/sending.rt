//! The text that sends a file, and the meaning of its answer.

ghost use Rattle.std.specs.Prelude.{◌≡◌, ◌≤◌, List, ℕ, length, Err, IfOk, OnOk};
ghost use Rattle.adb_copy.specs.Trees.{HasAnswered};
ghost use Rattle.adb_copy.specs.declared.error.CopyError.TheVariants as errors;
ghost use Rattle.adb_sync_client.specs.Texts.{push_text};
ghost use Rattle.adb_sync_client.specs.Values.{push_value};
ghost use Rattle.adb_sync_client.specs.declared.request.TheConstants.{MAX_ASKED_PATH};
ghost use Rattle.adb_sync_client.specs.declared.step.Step.TheVariants as steps;

use crate::error::CopyError;
use adb_files::File;
use adb_outside::Text;
use adb_script::push_text;
use adb_sync_client::{Push, Step};
use std::alloc::{AllocError, Global};

/// Returns the text that sends a file.
pub(crate) fn file_text(alloc: Global, path: &[u8], file: &File) -> Result<Text, AllocError>
    requires { length path.now ≤ MAX_ASKED_PATH }
    ensures { IfOk result (λ text. text
        ≡ push_text path.now file.now.mode file.now.mtime file.now.bytes) }
{
    push_text(alloc, path, file.mode, file.mtime, file.bytes.as_slice())
}

/// Reads the answer to the push of a file.
///
/// - `Refused`: the device refused the file. The error has the path of the file and the text of the
///   answer.
/// - `OutOfMemory`: an allocation failed.
pub(crate) fn read_answer(alloc: Global, path: &[u8], answer: &[u8]) -> Result<(), CopyError>
    requires short { length path.now ≤ MAX_ASKED_PATH }
    requires whole { HasAnswered (push_value answer.now) }
    ensures ok { OnOk result (push_value answer.now ≡ steps.Done tt) }
    ensures refused { (at text : List ℕ) → result ≡ Err (errors.Refused at text)
        → (at ≡ path.now) × (push_value answer.now ≡ steps.Refused text) }
{
    let step = push_step(alloc, path, answer)?;
    match step {
        Step::Done(()) => Ok(()),
        Step::Refused(text) => {
            let path = Text::from_slice(alloc, path)?;
            Err(CopyError::Refused { path, text })
        }
        Step::More | Step::BadAnswer { .. } => unreachable!(),
    }
}

/// Parses the answer to a push.
fn push_step(alloc: Global, path: &[u8], answer: &[u8]) -> Result<Step<()>, AllocError>
    requires { length path.now ≤ MAX_ASKED_PATH }
    ensures { IfOk result (λ step. step ≡ push_value answer.now) }
{
    let mut push = Push::new(alloc, path, 0, 0, b"")?;
    let step = push.feed(answer)?;
    Ok(step)
}
