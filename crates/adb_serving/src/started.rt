//! The result of a run over this machine.

use adb_top::Status;

/// The result of a run over this machine: its exit status, and the sink for the record.
#[derive(Drop)]
pub struct Started<R: Drop> {
    /// The exit status.
    pub status: Status,
    /// The sink for the record.
    pub history: HistorySink<R>,
}

/// The sink for the record after a run.
#[derive(Drop)]
pub enum HistorySink<R: Drop> {
    /// It is returned.
    Returned(R),
    /// It was dropped: a record was requested, and the server did not serve.
    Dropped,
    /// The thread that writes the record keeps it: a second after the server had ended, it had not
    /// returned, for example because nobody reads what it writes. The record is not whole.
    Stuck,
}
