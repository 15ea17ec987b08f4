//! Bytes of a client that are taken back, and the number of due bytes that are sent at once.

ghost use Rattle.std.specs.Prelude.{◌≤◌, length};

use adb_client::Client;
use adb_outside::{MIN_SHARED, SplitBytes};
use bytes::Bytes;
use std::alloc::{AllocError, Global};

/// Returns whether the bytes that are held exclude those that were taken back.
fn is_without_last(client: &mut Client) -> Result<bool, AllocError> {
    client.take_in(b"abcde")?;
    client.prepare_cuts(client.held(), 1)?;
    client.take_back(client.held().min(2));
    let rest = cut_off(client, client.held())?;
    Ok(rest.parts().start == b"abc".as_slice() && rest.len() == 3 && client.held() == 0)
}

/// Takes the first `n` of the bytes that are held.
fn cut_off(client: &mut Client, n: usize) -> Result<SplitBytes, AllocError>
    requires { n ≤ length client.old.held }
{
    client.prepare_cuts(n, 1)?;
    Ok(client.cut_ready(n))
}

pub fn bytes_are_taken_back(alloc: Global) -> Result<bool, AllocError> {
    let mut client = Client::new(alloc, 1, false)?;
    is_without_last(&mut client)
}

/// The shortest slice that is not copied.
const LARGE: &[u8] = &[0; MIN_SHARED];

/// The length of a piece of which two do not share one memory.
const HALF_LEN: usize = 40_000;

const HALF: &[u8] = &[0; HALF_LEN];

/// Returns whether the bytes that are held after these pieces are cut off at once, as a first slice
/// of `first` bytes and a second slice.
fn lie_so(client: &mut Client, pieces: &[&[u8]], first: usize) -> Result<bool, AllocError> {
    for piece in pieces {
        client.take_in(piece)?;
    }
    let held = client.held();
    let all = cut_off(client, held)?;
    Ok(all.parts().start.len() == first && all.len() == held)
}

pub fn two_memories_are_cut_off_as_they_are(alloc: Global) -> Result<bool, AllocError> {
    let mut client = Client::new(alloc, 1, false)?;
    let two = lie_so(&mut client, &[HALF, HALF], HALF_LEN)?;
    Ok(two && lie_so(&mut client, &[HALF, HALF, HALF], 3 * HALF_LEN)?)
}

/// Returns whether pieces that come after the rest of a slice are cut off with it, without a copy.
fn lie_behind(client: &mut Client) -> Result<bool, AllocError> {
    client.take_in(HALF)?;
    let cut = cut_off(client, client.held().min(MIN_SHARED))?;
    lie_so(
        client,
        &[LARGE, b"a", LARGE],
        HALF_LEN.saturating_sub(cut.len()),
    )
}

pub fn pieces_behind_a_slice_lie_in_one_memory(alloc: Global) -> Result<bool, AllocError> {
    let mut client = Client::new(alloc, 1, false)?;
    lie_behind(&mut client)
}

/// The maximum number of bytes that are sent at once.
const MOST: usize = 10_000;

/// Queues two bytes and two large slices.
fn owe_large(client: &mut Client) -> Result<(), AllocError> {
    client.owe(b"ab")?;
    client.reserve_slices(2)?;
    client.owe_slice_spare(Bytes::from_static(LARGE));
    client.owe_slice_spare(Bytes::from_static(LARGE));
    Ok(())
}

/// Returns whether `at_once` bytes are to be sent at once. Hands `handed` of them out.
fn goes_out(client: &mut Client, at_once: usize, handed: usize) -> bool {
    let so = client.front_len(MOST) == at_once;
    client.hand(handed.min(client.owed()));
    so
}

/// Returns whether a slice is sent by itself while it is large, and its rest together with others.
fn is_alone(client: &mut Client) -> Result<bool, AllocError> {
    owe_large(client)?;
    Ok(
        goes_out(client, 2, 2)
            && goes_out(client, MIN_SHARED, MIN_SHARED)
            && goes_out(client, MIN_SHARED, 1)
            && goes_out(client, MOST, 0),
    )
}

pub fn a_large_slice_goes_out_alone(alloc: Global) -> Result<bool, AllocError> {
    let mut client = Client::new(alloc, 1, false)?;
    is_alone(&mut client)
}
