//! The service that an OPEN asks for.

ghost use Rattle.std.specs.Prelude.{◌≡◌, option_map};
ghost use Rattle.adb_device_streams.specs.Asked.{kind_of, service_of, shell_with, colon_in, has_v2, name_of};

/// A service of the device (SERVICES.TXT).
#[derive(Clone, Copy)]
pub enum Asked<'a> {
    /// Writes back the bytes that it gets.
    Echo,
    /// The file sync service (SYNC.TXT).
    Sync,
    /// A command. `packets` says whether its streams consist of packets of the shell protocol.
    Shell { packets: bool, command: &'a [u8] },
}

/// Returns the name of the service in the payload of an OPEN: without its last byte if that is a
/// NUL.
pub fn service_name(payload: &[u8]) -> &[u8]
    ensures { result.now ≡ name_of payload.now }
{
    match payload {
        [name @ .., 0] => name,
        _ => payload,
    }
}

/// Returns the service of a name; `None` exactly if the device has no such service.
pub fn read_service(name: &[u8]) -> Option<Asked<'_>>
    ensures { option_map kind_of result ≡ service_of name.now }
{
    if name == b"echo:".as_slice() {
        return Some(Asked::Echo);
    }
    if name == b"sync:".as_slice() {
        return Some(Asked::Sync);
    }
    if name.starts_with(b"shell:") {
        return Some(Asked::Shell {
            packets: false,
            command: &name[6..],
        });
    }
    if name.starts_with(b"shell,") {
        return shell_with(&name[6..]);
    }
    None
}

/// Parses a shell service: words, a colon and a command.
fn shell_with(rest: &[u8]) -> Option<Asked<'_>>
    ensures { option_map kind_of result ≡ shell_with rest.now }
{
    match colon_in(rest) {
        None => None,
        Some(colon) => Some(Asked::Shell {
            packets: has_v2(&rest[..colon]),
            command: &rest[colon + 1..],
        }),
    }
}

/// Returns the place of the first colon.
fn colon_in(rest: &[u8]) -> Option<usize>
    ensures { result ≡ colon_in rest.now }
{
    rest.iter().position(|byte| *byte == b':')
}

/// Returns whether `v2` is among the comma-separated words.
fn has_v2(words: &[u8]) -> bool
    ensures { result ≡ has_v2 words.now }
{
    words
        .split(|byte| *byte == b',')
        .any(|word| word == b"v2".as_slice())
}
