//! The memory for the packets of a link, which is allocated before they are handled.

ghost use Rattle.std.specs.Prelude.{IfOk};
ghost use Rattle.adb_hub_tables.specs.Fit.{IsFit};
ghost use Rattle.adb_hub_tables.specs.Widening.{Widens};
ghost use Rattle.adb_hub_links.specs.Reserving.{IsReserved};

use crate::counting::{count, sum};
use crate::granting::granted;
use crate::naming::named;
use crate::preparing::{prepare_each, reserve_each};
use adb_hub_rules::Came;
use adb_hub_tables::{Tables, reserve_packets};
use std::alloc::AllocError;
use std::collections::{BTreeSet, VecDeque};

/// Allocates the memory to handle packets of a link, and to send the held bytes of the streams that
/// OKAYs among them name. Returns the ids of these streams.
pub(crate) fn reserve(
    tables: &mut Tables,
    link: u32,
    packets: &VecDeque<Came>,
) -> Result<BTreeSet<u32>, AllocError>
    requires fit { IsFit tables.old }
    ensures widens { Widens tables.old tables.new }
    ensures reserved { IfOk result (λ ids.
        IsReserved link packets.now.items ids.keys tables.new) }
{
    let ids = named(tables.alloc, &tables.streams, link, packets)?;
    let given = granted(tables.alloc, packets)?;
    let counts = count(tables.alloc, &tables.streams, packets)?;
    reserve_each(&mut tables.clients, &counts)?;
    let maxdata = tables.maxdata_of(link);
    let writes = prepare_each(&mut tables.clients, &tables.streams, &ids, &given, maxdata)?;
    let places = sum(writes, packets.len())?;
    reserve_packets(&mut tables.links, link, places)?;
    Ok(ids)
}
