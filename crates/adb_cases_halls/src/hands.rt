//! Calls on a hall that several cases make.

use adb_desk::Progress;
use adb_hub::{Handed, Life, MAX_HELD};
use adb_outside::HandOut;
use adb_server_hall::{ClientInOf, ClientOutOf, Hall};
use adb_server_log::{ClientIn, ClientOut, DeskError};

/// The first packet of a device that takes at most 4,096 bytes at once.
pub(crate) const CNXN: &[u8] =
    b"CNXN\x01\0\0\x01\0\x10\0\0\x08\0\0\0\0\0\0\0\xbc\xb1\xa7\xb1device::";

/// The packet by which a device opens a stream. The reply of 24 bytes is due at once.
pub(crate) const OPEN: &[u8] = b"OPEN\x07\0\0\0\0\0\0\0\x01\0\0\0\0\0\0\0\xb0\xaf\xba\xb1\0";

/// The passes of a client.
pub(crate) type Client<E, M, K> = (ClientIn<E, M, K>, ClientOut<E, M, K>);

/// Returns whether the answer of an act says that its client or device is alive.
pub(crate) fn lives(answer: Result<Progress, DeskError>) -> bool {
    match answer {
        Ok(progress) => progress.life == Life::Live,
        Err(_) => false,
    }
}

/// Returns whether a client is alive after it asked for the version.
pub(crate) fn asks<H: Hall>(hall: &mut H, reading: &mut ClientInOf<H>) -> bool {
    lives(hall.read(reading, b"000Chost:version"))
}

/// Returns whether the version is handed out.
pub(crate) fn is_answered<H: Hall>(hall: &mut H, writing: &mut ClientOutOf<H>) -> bool {
    hands_out(hall.put(writing, MAX_HELD), b"OKAY00040029")
}

/// Returns whether these bytes were handed out.
pub(crate) fn hands_out(answer: Result<Handed, DeskError>, bytes: &[u8]) -> bool {
    match answer {
        Ok(Handed::Bytes(given)) => is_made_of(&given, bytes),
        _ => false,
    }
}

fn is_made_of(given: &HandOut, bytes: &[u8]) -> bool {
    let parts = given.parts();
    given.len() == bytes.len() && bytes.starts_with(parts.start) && bytes.ends_with(parts.rest)
}

/// Returns how many bytes were handed out.
pub(crate) fn len_of(answer: Result<Handed, DeskError>) -> usize {
    match answer {
        Ok(Handed::Bytes(given)) => given.len(),
        _ => 0,
    }
}
