//! The input of a link, cut to packets (protocol.txt).

ghost use Rattle.std.specs.Prelude.{◌≡◌, ◌≤◌, [], ℕ, All, Some, IfOk, OnOk, IfSome, length};
ghost use Rattle.adb_outside.specs.Tables.{at};
ghost use Rattle.adb_banner.specs.Banner.{identity_of};
ghost use Rattle.adb_registry.specs.declared.registry.TheConstants.{MAX_FEATURES};
ghost use Rattle.adb_hub_tables.specs.declared.ports.Port.{Port};
ghost use Rattle.adb_hub_rules.specs.Came.{IsCame, packet_of, packets_of};
ghost use Rattle.adb_wire.specs.declared.command.Command.TheVariants.{Cnxn};
ghost use Rattle.adb_wire.specs.declared.headers.TheConstants.{MAX_PAYLOAD};
ghost use Rattle.adb_hub_links.specs.Cutting.{IsClear, IsCutTo, TakesNext, cut_of};

use adb_banner::IdentityError;
use adb_hub_rules::Came;
use adb_hub_tables::{Port, TouchedMap};
use adb_outside::Identity;
use adb_wire::{Command, Deframer, Head, Packet};
use std::alloc::{AllocError, Global};
use std::collections::VecDeque;

/// The input of a link after a piece: the packets, the bytes held after them, and whether a byte
/// there was wrong.
#[derive(Drop)]
pub(crate) struct Cutting {
    pub(crate) incoming: Deframer,
    pub(crate) packets: VecDeque<Came>,
    pub(crate) broken: bool,
}

impl Cutting {
    /// Takes the packets out of the input.
    pub(crate) fn of(alloc: Global, mut incoming: Deframer) -> Result<Cutting, AllocError>
        ensures { IfOk result (IsCutTo incoming) }
    {
        let broken = incoming.is_broken();
        let packets = take_all(alloc, &mut incoming)?;
        Ok(Cutting {
            incoming,
            packets,
            broken,
        })
    }
}

/// Returns the input of a link with a further piece; the link is unchanged.
pub(crate) fn with_piece(
    alloc: Global,
    links: &mut TouchedMap<Port>,
    link: u32,
    piece: &[u8],
) -> Result<Deframer, AllocError>
    requires clear { (port : Port) → at link links.old.entries ≡ Some port
        → IsClear port.link.incoming }
    ensures stays { (k : ℕ) → at k links.new.entries ≡ at k links.old.entries }
    ensures next { (port : Port) → at link links.old.entries ≡ Some port
        → IfOk result (λ incoming. incoming ≡ cut_of port.link.incoming piece.now) }
{
    match links.get_mut(&link) {
        Some(port) => port.link.with_piece(piece),
        None => Ok(Deframer::new(alloc)),
    }
}

/// Takes all whole packets.
fn take_all(alloc: Global, incoming: &mut Deframer) -> Result<VecDeque<Came>, AllocError>
    ensures came { IfOk result (λ packets. All IsCame packets.items) }
    ensures packets { IfOk result (λ packets.
        packets_of packets.items ≡ incoming.old.given) }
    ensures incoming { OnOk result (incoming.new ≡ record incoming.old { given = [] }) }
{
    let mut packets = VecDeque::new(alloc);
    while let Some(came) = next_came(alloc, incoming)? {
        packets.push_back(came)?;
    }
    Ok(packets)
}

/// Takes the next whole packet, if there is one.
fn next_came(alloc: Global, incoming: &mut Deframer) -> Result<Option<Came>, AllocError>
    ensures { IfOk result (TakesNext incoming.old incoming.new) }
{
    match incoming.next() {
        Some(packet) => Ok(Some(came(alloc, packet)?)),
        None => Ok(None),
    }
}

/// Returns a packet that came. Its check word was verified.
pub(crate) fn came(alloc: Global, packet: Packet) -> Result<Came, AllocError>
    requires { length packet.payload ≤ MAX_PAYLOAD }
    ensures came { IfOk result IsCame }
    ensures packet { IfOk result (λ came. packet_of came ≡ packet) }
{
    let head = Head {
        command: packet.command,
        arg0: packet.arg0,
        arg1: packet.arg1,
        length: packet.payload.len() as u32,
        check: 0,
    };
    let identity = identity_in(alloc, &head, packet.payload.as_slice())?;
    Ok(Came {
        head,
        payload: packet.payload,
        identity,
    })
}

/// Returns the identity in a CNXN; `None` if the payload is no identity, or the packet is no CNXN.
fn identity_in(alloc: Global, head: &Head, payload: &[u8]) -> Result<Option<Identity>, AllocError>
    ensures identity { head.now.command ≡ Cnxn
        → IfOk result (λ identity. identity_of payload.now ≡ identity) }
    ensures features { IfOk result (λ identity. IfSome identity (λ identity.
        length identity.features ≤ MAX_FEATURES)) }
{
    match head.command {
        Command::Cnxn => read(alloc, payload),
        _ => Ok(None),
    }
}

/// Returns the identity of a device; `None` if the banner is none.
fn read(alloc: Global, banner: &[u8]) -> Result<Option<Identity>, AllocError>
    ensures identity { IfOk result (λ identity. identity_of banner.now ≡ identity) }
    ensures features { IfOk result (λ identity. IfSome identity (λ identity.
        length identity.features ≤ MAX_FEATURES)) }
{
    match adb_banner::read(alloc, banner) {
        Ok(identity) => Ok(Some(identity)),
        Err(IdentityError::NotIdentity) => Ok(None),
        Err(IdentityError::OutOfMemory) => Err(AllocError),
    }
}
