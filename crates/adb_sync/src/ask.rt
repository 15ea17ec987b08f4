//! Requests to the sync service.

use adb_outside::Text;

/// A request of the client.
#[derive(Drop)]
pub enum SyncAsk {
    /// STAT: asks for the mode, size and time of a path.
    Stat(Text),
    /// LIST: asks for the entries of a directory.
    List(Text),
    /// RECV: asks for the bytes of a file.
    Recv(Text),
    /// SEND: the file at this path is to be written. Its bytes and its time follow.
    Send { path: Text, mode: Text },
    /// DATA: the next bytes of the file that is being sent, at most 65,536.
    Chunk(Text),
    /// DONE: the file that was sent is whole. Its time is in seconds since 1970.
    Finish { mtime: u32 },
    /// QUIT: no more requests follow.
    Quit,
}
