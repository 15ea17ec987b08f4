//! The answers to whole requests.

ghost use Rattle.std.specs.Prelude.{◌≡◌, ◌≤◌, ◌<◌, ◌++◌, length, OnOk, OnErr};
ghost use Rattle.adb_files.specs.Served.{fault_text, fail_bytes, stat_in, stat_bytes_of, list_bytes, recv_bytes};
ghost use Rattle.adb_files.specs.Listing.{listing};
ghost use Rattle.adb_files.specs.Service.{TellsFront};

use crate::files::Files;
use crate::outbox::Outbox;
use adb_outside::Text;
use adb_sync::{SyncAnswer, SyncFault, SyncRule};
use std::alloc::{AllocError, Global};

/// Returns the text of a fault.
pub fn fault_text(fault: SyncFault) -> &'static [u8]
    ensures text { result.now ≡ fault_text fault }
    ensures short { length result.now ≤ 20 }
{
    match fault.rule {
        SyncRule::UnknownId => b"unknown sync request",
        SyncRule::PathTooLong => b"path too long",
        SyncRule::BadSend => b"bad send path",
        SyncRule::ChunkTooLong => b"bad data length",
        SyncRule::BadPlace => b"bad data id",
    }
}

/// Appends a FAIL. If an allocation fails, the answers are unchanged.
pub fn fail(alloc: Global, text: &[u8], out: &mut Outbox) -> Result<(), AllocError>
    requires { length text.now ≤ 20 }
    ensures ok { OnOk result (out.new ≡ out.old ++ fail_bytes text.now) }
    ensures err { OnErr result (out.new ≡ out.old) }
{
    out.push(&SyncAnswer::Fail(Text::from_slice(alloc, text)?))
}

/// Appends the answer to a STAT. If an allocation fails, the answers are unchanged.
pub fn answer_stat(files: &Files, path: &[u8], out: &mut Outbox) -> Result<(), AllocError>
    ensures ok { OnOk result (out.new ≡ out.old ++ stat_bytes_of (stat_in files.now path.now)) }
    ensures err { OnErr result (out.new ≡ out.old) }
{
    let stat = files.stat(path);
    out.push(&SyncAnswer::Stat {
        mode: stat.mode,
        size: stat.size,
        mtime: stat.mtime,
    })
}

/// Appends the answer to a LIST. If an allocation fails, a prefix of it may have been appended.
pub fn answer_list(files: &Files, path: &[u8], out: &mut Outbox) -> Result<(), AllocError>
    ensures ok { OnOk result (out.new ≡ out.old ++ list_bytes (listing path.now files.now)) }
    ensures err { OnErr result
        (TellsFront (list_bytes (listing path.now files.now)) out.old out.new) }
{
    for entry in files.list(path)? {
        out.push(&SyncAnswer::Dent {
            mode: entry.mode,
            size: entry.size,
            mtime: entry.mtime,
            name: entry.name,
        })?;
    }
    out.push(&SyncAnswer::ListEnd)
}

/// Appends the answer to a RECV. If an allocation fails, the answers are unchanged.
pub fn answer_recv(
    alloc: Global,
    files: &Files,
    path: &[u8],
    out: &mut Outbox,
) -> Result<(), AllocError>
    ensures ok { OnOk result (out.new ≡ out.old ++ recv_bytes files.now path.now) }
    ensures err { OnErr result (out.new ≡ out.old) }
{
    match files.share(path)? {
        Ok(file) => out.push_file(file),
        Err(refusal) => fail(alloc, refusal.text(), out),
    }
}
