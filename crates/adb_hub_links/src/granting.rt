//! The credit that packets give (protocol.txt, READY).

ghost use Rattle.std.specs.Prelude.{◌≡◌, ◌+◌, ℕ, IfOk, OnOk};
ghost use Rattle.adb_outside.specs.Tables.{at};
ghost use Rattle.adb_hub_rules.specs.Came.{packet_of, packets_of};
ghost use Rattle.adb_laws_resting.specs.Named.{granted, granted_by};
ghost use Rattle.adb_hub_links.specs.Counting.{count_at};

use crate::counting::add;
use adb_hub_rules::{Came, credit_word};
use adb_wire::Command;
use std::alloc::{AllocError, Global};
use std::collections::{BTreeMap, VecDeque};

/// Returns how much credit the OKAYs among packets give the stream of each id, in total.
pub(crate) fn granted(
    alloc: Global,
    packets: &VecDeque<Came>,
) -> Result<BTreeMap<u32, usize>, AllocError>
    ensures { IfOk result (λ words. (l : ℕ) → count_at (at l words.entries)
        ≡ granted (packets_of packets.now.items) l) }
{
    let mut words = BTreeMap::new(alloc);
    for came in packets.iter() {
        grant_also(&mut words, came)?;
    }
    Ok(words)
}

/// Adds the credit of one more packet.
fn grant_also(words: &mut BTreeMap<u32, usize>, came: &Came) -> Result<(), AllocError>
    ensures { OnOk result ((l : ℕ) → count_at (at l words.new.entries)
        ≡ count_at (at l words.old.entries)
        + granted_by came.now.head.command (packet_of came.now) l) }
{
    match came.head.command {
        Command::Okay => match credit_word(came.payload.as_slice()) {
            Some(word) => add(words, came.head.arg1, word as usize),
            None => Ok(()),
        },
        _ => Ok(()),
    }
}
