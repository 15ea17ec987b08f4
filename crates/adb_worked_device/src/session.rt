//! The course of a session.

ghost use Rattle.std.specs.Prelude.{◌≤◌};

use crate::case::Case;
use crate::meaning::tell_meaning;
use adb_outside::Text;
use adb_script::{EchoLine, Script, ScriptLine, SessionLine};
use std::alloc::{AllocError, Global};

/// Returns the request of a session, the bytes that it writes, the meaning of the bytes that it was
/// handed, in pieces of at most `piece` bytes, and the printed bytes.
pub fn told(alloc: Global, case: Case<'_>, piece: usize) -> Result<Text, AllocError>
    requires { 1 ≤ piece }
{
    let mut told = Text::new(alloc);
    tell_case(alloc, case, piece, &mut told)?;
    Ok(told)
}

fn tell_case(alloc: Global, case: Case<'_>, piece: usize, told: &mut Text) -> Result<(), AllocError>
    requires { 1 ≤ piece }
{
    let Ok(script) = Script::read(alloc, case.line) else {
        return told.push_slice(b"no line\n");
    };
    tell_script(alloc, &script, case, piece, told)
}

fn tell_script(
    alloc: Global,
    script: &Script<'_>,
    case: Case<'_>,
    piece: usize,
    told: &mut Text,
) -> Result<(), AllocError>
    requires { 1 ≤ piece }
{
    match script.lines().first() {
        Some(ScriptLine::Session(session)) => tell_session(alloc, session, case, piece, told),
        Some(ScriptLine::Echo(echo)) => tell_echo(alloc, *echo, case, told),
        None => told.push_slice(b"no line\n"),
    }
}

fn tell_session(
    alloc: Global,
    session: &SessionLine<'_>,
    case: Case<'_>,
    piece: usize,
    told: &mut Text,
) -> Result<(), AllocError>
    requires { 1 ≤ piece }
{
    tell(session.service(alloc)?, b"\n", told)?;
    tell(session.text(alloc, case.number)?, b"\n", told)?;
    tell_meaning(alloc, session, case.handed, piece, told)?;
    tell(session.answer(alloc, case.handed)?, b"", told)
}

fn tell_echo(
    alloc: Global,
    echo: EchoLine,
    case: Case<'_>,
    told: &mut Text,
) -> Result<(), AllocError> {
    let echoed = echo.is_echoed(case.number, case.handed);
    let means: &[u8] = if echoed {
        b"\nechoed\n"
    } else {
        b"\nnot echoed\n"
    };
    tell(echo.text(alloc, case.number)?, means, told)?;
    tell(echo.answer(alloc)?, b"", told)
}

/// Appends a text, and then its end.
fn tell(text: Text, end: &[u8], told: &mut Text) -> Result<(), AllocError> {
    told.push_slice(text.as_slice())?;
    told.push_slice(end)
}
