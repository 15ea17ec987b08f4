//! The parts of replies (OVERVIEW.TXT, "Protocol details").

ghost use Rattle.std.specs.Prelude.{◌≡◌, ◌++◌, ◌<◌, ◌^◌, length, IfOk, OnOk, OnErr};
ghost use Rattle.adb_reply.specs.Strings.{string, okay, failed, told};

use crate::answer::{Answer, Next};
use adb_outside::Text;
use adb_request::hex4;
use std::alloc::{AllocError, Global};

/// Appends the four digits of a text's length, and the text. If an allocation fails, the bytes are
/// unchanged.
pub fn push_string(bytes: &mut Text, text: &[u8]) -> Result<(), AllocError>
    requires { length text.now < 2 ^ 16 }
    ensures ok { OnOk result (bytes.new ≡ bytes.old ++ string text.now) }
    ensures err { OnErr result (bytes.new ≡ bytes.old) }
{
    let before = bytes.len();
    bytes.push_slice(&hex4(text.len() as u16))?;
    match bytes.push_slice(text) {
        Ok(()) => Ok(()),
        Err(error) => {
            bytes.truncate(before);
            Err(error)
        }
    }
}

/// Returns the answer `OKAY` without a text.
pub(crate) fn okay(alloc: Global, next: Next) -> Result<Answer, AllocError>
    ensures { IfOk result (λ answer. answer ≡ record { bytes = okay; next = next }) }
{
    Ok(Answer {
        bytes: Text::from_slice(alloc, b"OKAY")?,
        next,
    })
}

/// Returns the answer `OKAY` and the requested text.
pub(crate) fn told(alloc: Global, text: &[u8], next: Next) -> Result<Answer, AllocError>
    requires { length text.now < 2 ^ 16 }
    ensures { IfOk result (λ answer. answer ≡ told text.now next) }
{
    let mut bytes = Text::from_slice(alloc, b"OKAY")?;
    push_string(&mut bytes, text)?;
    Ok(Answer { bytes, next })
}

/// Returns the answer `FAIL` and the reason.
pub(crate) fn failed(alloc: Global, why: &[u8]) -> Result<Answer, AllocError>
    requires { length why.now < 2 ^ 16 }
    ensures { IfOk result (λ answer. answer ≡ failed why.now) }
{
    let mut bytes = Text::from_slice(alloc, b"FAIL")?;
    push_string(&mut bytes, why)?;
    Ok(Answer {
        bytes,
        next: Next::Close,
    })
}
