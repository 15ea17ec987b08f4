//! The end of a device's link, for which the thread that dialled the device waits.

use std::alloc::{AllocFailed, Global};
use std::sync::atomic::{AtomicBool, Ordering};
use std::sync::{Arc, Wait};
use std::thread::Parker;
use std::time::Duration;

/// Whether the device of a link has sent anything, and whether the link has ended. The halves of
/// the link share it with the thread that dialled the device, which alone waits for the end.
#[derive(Drop)]
pub struct Line {
    spoken: AtomicBool,
    ended: AtomicBool,
    dialler: Parker,
}

impl Line {
    /// Makes the line of a link that has not ended. Fails if an allocation fails.
    pub fn new(alloc: Global) -> Result<Arc<Line, Global>, AllocFailed<Line>> {
        Arc::new(
            alloc,
            Line {
                spoken: AtomicBool::new(false),
                ended: AtomicBool::new(false),
                dialler: Parker::new(),
            },
        )
    }

    /// Notes that the device has sent bytes.
    pub fn speak(&self) {
        self.spoken.store(true, Ordering::SeqCst);
    }

    /// Returns whether the device has sent bytes.
    pub fn has_spoken(&self) -> bool {
        self.spoken.load(Ordering::SeqCst)
    }

    /// Ends the line and wakes the thread that waits for its end. The line stays ended.
    pub fn end(&self) {
        self.ended.store(true, Ordering::SeqCst);
        self.dialler.unpark();
    }

    /// Returns whether the line has ended.
    pub fn has_ended(&self) -> bool {
        self.ended.load(Ordering::SeqCst)
    }

    /// Waits until the line ends, but at most for `time`. It may return earlier.
    pub fn wait<W: Wait>(&self, rt: &W, time: Duration) {
        if !self.has_ended() {
            self.dialler.park_timeout(rt, time);
        }
    }
}
