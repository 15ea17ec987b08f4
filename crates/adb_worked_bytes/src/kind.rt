//! The kinds of cases.

use crate::reader::read;
use crate::{banners, requests, slices};
use adb_outside::Text;
use adb_shell::ShellReader;
use adb_sync::{AnswerReader, AskReader};
use adb_wire::Deframer;
use std::alloc::{AllocError, Global};

/// A kind of cases.
#[derive(Clone, Copy, Drop)]
pub enum Kind {
    /// Answers of a sync service.
    Answers,
    /// Requests to a sync service.
    Asks,
    /// Banners of devices.
    Banners,
    /// The beginning of a client's bytes.
    Cuts,
    /// The features of a device.
    Features,
    /// Answers of a sync service to a LIST.
    Lists,
    /// The meaning of a request.
    Meanings,
    /// Packets.
    Packets,
    /// Packets of a shell.
    Shell,
    /// Packets whose contents are not parsed.
    Slices,
}

/// All kinds.
pub const KINDS: [Kind; 10] = [
    Kind::Answers,
    Kind::Asks,
    Kind::Banners,
    Kind::Cuts,
    Kind::Features,
    Kind::Lists,
    Kind::Meanings,
    Kind::Packets,
    Kind::Shell,
    Kind::Slices,
];

impl Kind {
    /// Returns the name of the file of its cases.
    pub fn file(self) -> &'static str {
        match self {
            Kind::Answers => "answers.txt",
            Kind::Asks => "asks.txt",
            Kind::Banners => "banners.txt",
            Kind::Cuts => "cuts.txt",
            Kind::Features => "features.txt",
            Kind::Lists => "lists.txt",
            Kind::Meanings => "meanings.txt",
            Kind::Packets => "packets.txt",
            Kind::Shell => "shell.txt",
            Kind::Slices => "slices.txt",
        }
    }

    /// Plays bytes, a stream in pieces of at most `size` bytes. Appends the resulting lines, each
    /// after a line end.
    pub fn play(
        self,
        alloc: Global,
        bytes: &[u8],
        size: usize,
        told: &mut Text,
    ) -> Result<(), AllocError> {
        match self {
            Kind::Answers => read(alloc, AnswerReader::new(alloc, false), bytes, size, told),
            Kind::Asks => read(alloc, AskReader::new(alloc), bytes, size, told),
            Kind::Banners => banners::tell(alloc, bytes, told),
            Kind::Cuts => requests::tell_cut(alloc, bytes, told),
            Kind::Features => banners::tell_feature(alloc, bytes, told),
            Kind::Lists => read(alloc, AnswerReader::new(alloc, true), bytes, size, told),
            Kind::Meanings => requests::tell(alloc, bytes, told),
            Kind::Packets => read(alloc, Deframer::new(alloc), bytes, size, told),
            Kind::Shell => read(alloc, ShellReader::new(alloc), bytes, size, told),
            Kind::Slices => slices::read(alloc, bytes, size, told),
        }
    }
}
