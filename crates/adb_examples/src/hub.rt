//! A caller of `Hub`: one shell command of one client on one device.

ghost use Rattle.std.specs.Prelude.{◌≡◌, ◌∷◌, ◌++◌, [], IfOk, codes};
ghost use Rattle.adb_hub.specs.declared.answers.Handed.{Handed};

use adb_hub::{Handed, Hub, HubError};
use adb_outside::Kind;
use std::alloc::Global;

/// The first packet of a device that takes at most 4,096 bytes at once.
const HELLO: &[u8] = b"CNXN\x01\0\0\x01\0\x10\0\0\x08\0\0\0\0\0\0\0\xbc\xb1\xa7\xb1device::";

/// The packets with which the device accepts the stream and sends the output of the command.
const OUTPUT: &[u8] = b"OKAY\x07\0\0\0\x01\0\0\0\0\0\0\0\0\0\0\0\xb0\xb4\xbe\xa6\
    WRTE\x07\0\0\0\x01\0\0\0\x03\0\0\0\0\0\0\0\xa8\xad\xab\xbahi\n";

/// The number of bytes that are handed out at once.
const MOST: usize = 4_096;

/// Attaches a device, lets a client ask it for `echo hi`, and returns what the client is handed
/// after the device has answered. The errors are those of the hub's calls.
pub fn echo(alloc: Global) -> Result<Handed, HubError>
    ensures { IfOk result (λ handed. handed ≡ Handed.Bytes (codes "OKAYOKAYhi" ++ 10 ∷ [])) }
{
    let mut hub = Hub::new(alloc);
    let link = hub.attach(Kind::Usb, b"emu1")?;
    hub.recv(link, HELLO)?;
    let client = hub.join()?;
    hub.read(client, b"0012host:transport-any000dshell:echo hi")?;
    let _open = hub.send(link, MOST)?;
    hub.recv(link, OUTPUT)?;
    hub.put(client, MOST)
}
