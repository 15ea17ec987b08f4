//! A worked session, as it is cut from its text.

use adb_outside::read_number;

/// A session of a script's line, and its expected course.
#[derive(Clone, Copy, Drop)]
pub struct Case<'a> {
    pub name: &'a str,
    /// The number of its line, or of its stream in an echo.
    pub number: u32,
    pub line: &'a [u8],
    /// The bytes that the session was handed.
    pub handed: &'a [u8],
    /// The expected text: the request, the bytes that the session writes, the meaning of the bytes
    /// that it was handed, and the printed bytes.
    pub told: &'a [u8],
}

/// Returns the first case of a text, and the text after it. A case has three lines, with its name,
/// its number and its script, and then two texts, each after a line with its length in bytes. A
/// missing part is empty or 0.
pub fn first_case(text: &[u8]) -> (Case<'_>, &[u8]) {
    let (name, rest) = first_line(text);
    let (number, rest) = first_line(rest);
    let (line, rest) = first_line(rest);
    let (handed, rest) = first_text(rest);
    let (told, rest) = first_text(rest);
    let case = Case {
        name: str::from_utf8(name).unwrap_or("?"),
        number: number_of(number),
        line,
        handed,
        told,
    };
    (case, rest)
}

/// Returns the first of the texts, and the rest after it.
fn first_text(text: &[u8]) -> (&[u8], &[u8]) {
    let (digits, rest) = first_line(text);
    rest.split_at(rest.len().min(number_of(digits) as usize))
}

/// Returns a text's first line, and the rest after its line end.
fn first_line(text: &[u8]) -> (&[u8], &[u8]) {
    match text.iter().position(|byte| *byte == b'\n') {
        Some(end) => (&text[..end], &text[end + 1..]),
        None => (text, b""),
    }
}

fn number_of(digits: &[u8]) -> u32 {
    let number = read_number(digits, 10).unwrap_or(0);
    u32::try_from(number).unwrap_or(0)
}
