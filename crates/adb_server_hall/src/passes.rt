//! The passes of the workers of a hall, over the ledgers of that hall.

use crate::hall::Hall;
use adb_server_log::{ClientIn, ClientOut, LinkIn, LinkOut, Pass};

/// The pass of a worker of a hall.
pub type PassOf<H: Hall> = Pass<<H as Hall>::Entries, <H as Hall>::Moved, <H as Hall>::Marks>;

/// The pass of a client's reader.
pub type ClientInOf<H: Hall> = ClientIn<
    <H as Hall>::Entries,
    <H as Hall>::Moved,
    <H as Hall>::Marks,
>;

/// The pass of a client's writer.
pub type ClientOutOf<H: Hall> = ClientOut<
    <H as Hall>::Entries,
    <H as Hall>::Moved,
    <H as Hall>::Marks,
>;

/// The pass of a device's reader.
pub type LinkInOf<H: Hall> = LinkIn<<H as Hall>::Entries, <H as Hall>::Moved, <H as Hall>::Marks>;

/// The pass of a device's writer.
pub type LinkOutOf<H: Hall> = LinkOut<<H as Hall>::Entries, <H as Hall>::Moved, <H as Hall>::Marks>;
