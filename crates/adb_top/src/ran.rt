//! The end of a run.

ghost use Rattle.std.specs.Prelude.{◌≡◌, None};

use crate::status::Status;

/// The end of a run, and the recorder of a server that served.
#[derive(Drop)]
pub struct Ran<R: Drop> {
    /// The exit status.
    pub status: Status,
    /// The recorder of the server, if the run was a server that began to serve. A server that ended
    /// earlier has none, and no other command has one.
    pub recorder: Option<R>,
}

impl<R: Drop> Ran<R> {
    /// Returns the end of a run without a recorder.
    pub(crate) fn bare(status: Status) -> Ran<R>
        ensures status { result.status ≡ status }
        ensures recorder { result.recorder ≡ None }
    {
        Ran {
            status,
            recorder: None,
        }
    }
}
