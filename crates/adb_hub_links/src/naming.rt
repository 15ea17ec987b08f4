//! The streams that OKAYs name (protocol.txt, READY).

ghost use Rattle.std.specs.Prelude.{◌≡◌, IfOk, OnOk};
ghost use Rattle.adb_hub_rules.specs.Came.{packet_of, packets_of};
ghost use Rattle.adb_hub_links.specs.Naming.{AreNamedOn, NamesAlso, named_on};

use adb_hub_rules::Came;
use adb_stream::Streams;
use adb_wire::Command;
use std::alloc::{AllocError, Global};
use std::collections::{BTreeSet, VecDeque};

/// Returns the ids of the live streams of a link that OKAYs among packets name.
pub(crate) fn named(
    alloc: Global,
    streams: &Streams,
    link: u32,
    packets: &VecDeque<Came>,
) -> Result<BTreeSet<u32>, AllocError>
    ensures { IfOk result (λ ids.
        AreNamedOn link (packets_of packets.now.items) streams.now.streams ids.keys) }
{
    let mut ids = BTreeSet::new(alloc);
    for came in packets.iter() {
        name_also(&mut ids, streams, link, came)?;
    }
    Ok(ids)
}

/// Adds the stream that a packet names, if there is one.
fn name_also(
    ids: &mut BTreeSet<u32>,
    streams: &Streams,
    link: u32,
    came: &Came,
) -> Result<(), AllocError>
    ensures { OnOk result (NamesAlso (named_on link (packet_of came.now) streams.now.streams)
        ids.old.keys ids.new.keys) }
{
    if let Some(id) = named_on(streams, link, came) {
        ids.insert(id)?;
    }
    Ok(())
}

/// Returns the stream that a packet names, if the packet is an OKAY and the stream lives and is one
/// of that link.
pub(crate) fn named_on(streams: &Streams, link: u32, came: &Came) -> Option<u32>
    ensures { result ≡ named_on link (packet_of came.now) streams.now.streams }
{
    let id = came.head.arg1;
    match came.head.command {
        Command::Okay if streams.find(link, id).is_some() => Some(id),
        _ => None,
    }
}
