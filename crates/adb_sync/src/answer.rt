//! Answers of the sync service.

use adb_outside::Text;

/// An answer of the service. Modes are those of `stat(2)`, times are in seconds since 1970.
#[derive(Drop)]
pub enum SyncAnswer {
    /// STAT: the attributes of a path; all three are 0 if there is nothing at the path.
    Stat {
        mode: u32,
        size: u32,
        mtime: u32,
    },
    /// DENT: one entry of a directory.
    Dent {
        mode: u32,
        size: u32,
        mtime: u32,
        name: Text,
    },
    /// DONE after the entries of a directory.
    ListEnd,
    /// DATA: the next bytes of a file, at most 65,536.
    Chunk(Text),
    /// DONE after the bytes of a file.
    ChunkEnd,
    /// OKAY: a file was written.
    Okay,
    /// FAIL: the reason why a request was refused.
    Fail(Text),
}

/// An entry of a directory.
#[derive(Drop)]
pub struct Dirent {
    pub name: Text,
    pub mode: u32,
    pub size: u32,
    pub mtime: u32,
}
