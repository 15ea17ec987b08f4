//! The link to the host.

ghost use Rattle.std.specs.Prelude.{◌≡◌, IfOk};
ghost use Rattle.adb_device_streams.specs.Link.{link_of, credit_word_in};

use adb_banner::{IdentityError, has_feature, read};
use adb_wire::{MAX_PAYLOAD, MIN_MAXDATA, MIN_VERSION, Packet, VERSION};
use byteorder::{ByteOrder, LittleEndian};
use std::alloc::{AllocError, Global};

/// A link to a host that sent its identity (protocol.txt, CNXN).
#[derive(Clone, Copy, Debug, PartialEq, Eq, Drop)]
pub struct Link {
    /// The maximum number of bytes of a write.
    pub most: u32,
    /// Whether streams have credit in bytes.
    pub credit: bool,
    /// Whether packets carry the sum of their bytes.
    pub sums: bool,
}

/// Returns the link that a host's CNXN makes, for a device that accepts payloads of at most
/// `own_most` bytes, and credit in bytes if `has_credit` is set. `None` exactly if the CNXN is
/// refused: its version is below 0x01000000, its payloads are shorter than 4,096 bytes, or it has
/// no identity.
pub fn read_cnxn(
    alloc: Global,
    cnxn: &Packet,
    own_most: u32,
    has_credit: bool,
) -> Result<Option<Link>, AllocError>
    ensures { IfOk result (λ link. link ≡ link_of own_most has_credit cnxn.now) }
{
    if cnxn.arg0 < MIN_VERSION || cnxn.arg1 < MIN_MAXDATA {
        return Ok(None);
    }
    match read(alloc, cnxn.payload.as_slice()) {
        Ok(identity) => Ok(Some(Link {
            most: cnxn.arg1.min(MAX_PAYLOAD).min(own_most),
            credit: has_credit && has_feature(&identity, b"hub_credit"),
            sums: cnxn.arg0 < VERSION,
        })),
        Err(IdentityError::NotIdentity) => Ok(None),
        Err(IdentityError::OutOfMemory) => Err(AllocError),
    }
}

/// Returns the credit word of an OKAY: its payload, if that has exactly four bytes.
pub fn credit_word_in(payload: &[u8]) -> Option<u32>
    ensures { result ≡ credit_word_in payload.now }
{
    if payload.len() != 4 {
        return None;
    }
    Some(LittleEndian::read_u32(payload))
}
