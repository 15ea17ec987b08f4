//! The state that a recorder, its writing thread and the end of a record share.

use adb_os_sockets::Ending;
use std::alloc::{AllocError, Global};
use std::sync::atomic::{AtomicBool, AtomicU64, Ordering};
use std::sync::{Arc, Wait};
use std::thread::Parker;
use std::time::Duration;

/// The number of milliseconds that a wait lasts before it looks at the flags again.
const SLICE: u64 = 100;

/// The number of slices after which a server that ends waits no longer for its record: one second.
const SLICES: u64 = 10;

/// The flags and wakes of `RecordState`.
#[derive(Drop)]
struct Shared {
    /// A write failed.
    failed: AtomicBool,
    /// The writing thread returns.
    returned: AtomicBool,
    /// The number of slices that were waited since the recorder last put a chunk.
    waited: AtomicU64,
    /// Wakes a recorder, which waits for the thread to take a chunk.
    took: Parker,
    /// Wakes the end of the record, which waits for the thread to return.
    back: Parker,
}

/// The state that a recorder, its writing thread and the end of a record share: what the thread
/// reports, and how long a server that ends waits for it. No clause constrains it.
///
/// While the server runs, a wait has no bound. If it ends, or is asked to end, the waits since the
/// recorder last put a chunk last one second together.
#[derive(Drop)]
pub struct RecordState {
    shared: Arc<Shared, Global>,
    ending: Ending,
}

impl RecordState {
    /// Returns the state of a record that was not begun. Fails if an allocation fails.
    pub fn new(alloc: Global, ending: &Ending) -> Result<RecordState, AllocError> {
        let shared = Shared {
            failed: AtomicBool::new(false),
            returned: AtomicBool::new(false),
            waited: AtomicU64::new(0),
            took: Parker::new(),
            back: Parker::new(),
        };
        Ok(RecordState {
            shared: Arc::new(alloc, shared)?,
            ending: ending.share()?,
        })
    }

    /// Returns another handle of the same state. Fails if an allocation fails.
    pub fn share(&self) -> Result<RecordState, AllocError> {
        Ok(RecordState {
            shared: Arc::try_clone(&self.shared)?,
            ending: self.ending.share()?,
        })
    }

    /// Reports that the thread took chunks. Wakes the recorder if it waits.
    pub(crate) fn take(&self) {
        self.shared.took.unpark();
    }

    /// Reports a failed write. The recorder fails at its next entry, so that the server ends.
    pub(crate) fn fail(&self) {
        self.shared.failed.store(true, Ordering::SeqCst);
    }

    /// Returns whether a write failed.
    pub(crate) fn has_failed(&self) -> bool {
        self.shared.failed.load(Ordering::SeqCst)
    }

    /// Reports that the thread returns. Wakes the end of the record if it waits.
    pub(crate) fn finish(&self) {
        self.shared.returned.store(true, Ordering::SeqCst);
        self.shared.back.unpark();
    }

    /// Says that the server has ended. Its record waits for a second at most from now on.
    pub(crate) fn end(&self) {
        self.ending.hurry();
    }

    /// Reports that the recorder put a chunk.
    pub(crate) fn put(&self) {
        self.shared.waited.store(0, Ordering::SeqCst);
    }

    /// Waits until the thread takes a chunk, for a slice at most. Returns `false` at once if the
    /// record has waited for a second, and the server ends or is asked to end.
    pub(crate) fn await_room<W: Wait>(&self, rt: &W) -> bool {
        if self.has_waited() && self.ending.is_hurried(rt) {
            return false;
        }
        self.wait(rt, &self.shared.took);
        true
    }

    /// Waits until the thread returns, or the record has waited for a second. Returns whether the
    /// thread returns.
    pub(crate) fn await_return<W: Wait>(&self, rt: &W) -> bool {
        for _ in 0..SLICES {
            if self.has_returned() || self.has_waited() {
                break;
            }
            self.wait(rt, &self.shared.back);
        }
        self.has_returned()
    }

    fn has_returned(&self) -> bool {
        self.shared.returned.load(Ordering::SeqCst)
    }

    fn has_waited(&self) -> bool {
        self.shared.waited.load(Ordering::SeqCst) >= SLICES
    }

    /// Waits for a slice, or until the parker is notified. Only one thread waits at a time.
    fn wait<W: Wait>(&self, rt: &W, parker: &Parker) {
        self.shared.waited.fetch_add(1, Ordering::SeqCst);
        parker.park_timeout(rt, Duration::from_millis(SLICE));
    }
}
