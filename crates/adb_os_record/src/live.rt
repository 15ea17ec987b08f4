//! The recorder of a live server.

ghost use Rattle.std.specs.Prelude.{◌≡◌, [], ℕ, List, None, Some, IfSome};
ghost use Rattle.adb_capture.specs.declared.entry.Entry.{Entry};
ghost use Rattle.adb_os_record.specs.Written.{joined};
ghost use Rattle.adb_os_record.specs.Live.{IsPut, Keeps, ServesCapture, live_faults};

use crate::pipe_sink::{Named, PipeSink};
use crate::writing::{Settled, Writing};
use adb_capture::{Entry, Owner};
use adb_outside::Sink;
use adb_pipe::PipeEnd;
use adb_recorder::{RecordError, Recorder, SinkRecorder};
use std::marker::Model;
use std::sync::Wait;
use std::thread::Threads;

/// The recorder of a live server. It is on and writes a capture into the pipe named by `B`, or it
/// is off and discards every entry. It is off only if `B` names no pipe.
#[derive(Drop)]
pub struct LiveRecorder<W: Wait + Drop, B: Named> {
    recorder: Option<SinkRecorder<PipeSink<W, B>>>,
}

impl<W: Wait + Drop, B: Named> Model for LiveRecorder<W, B> {
    ghost use Rattle.std.specs.Prelude.{◌≡◌, Option, None};
    ghost use Rattle.adb_recorder.specs.Recording.{SinkRecording};
    ghost use Rattle.adb_os_record.specs.Written.{PipeSinkView};

    ghost Value = { Option (SinkRecording PipeSinkView) };

    ghost view = { λ r. r.recorder };

    ghost invariant = { λ r. r.recorder ≡ None → B.pipe ≡ None };
}

impl<W: Wait + Drop, B: Named> LiveRecorder<W, B> {
    /// Returns a recorder that is on, over a sink to which nothing was written.
    pub fn on(sink: PipeSink<W, B>) -> LiveRecorder<W, B>
        requires { (sink.put ≡ []) × (sink.faults ≡ 0) }
        ensures stands { Keeps result [] }
        ensures faults { live_faults result ≡ 0 }
    {
        LiveRecorder {
            recorder: Some(SinkRecorder::new(sink)),
        }
    }

    /// Returns a recorder that is off. `B` must name no pipe.
    pub fn off() -> LiveRecorder<W, B>
        requires { B.pipe ≡ None }
        ensures stands { Keeps result [] }
        ensures faults { live_faults result ≡ 0 }
    {
        LiveRecorder { recorder: None }
    }

    /// Puts the end mark after the capture and returns the finished output end. Returns `None` if
    /// the recorder was off, or if the pipe was full for a second after the server ended.
    pub fn finish(self) -> Option<PipeEnd>
        ensures named { IfSome result (λ end. Some end.pipe ≡ B.pipe) }
        ensures put { IfSome result (λ end. (kept : List Entry) → Keeps self kept
            → IsPut (live_faults self) kept (joined end.put)) }
    {
        let Some(recorder) = self.recorder else {
            return None;
        };
        let end = recorder.into_sink().finish()?;
        Some(end)
    }
}

/// Ends the record of a server that has returned its recorder. Waits until the thread has written
/// every chunk or a write has failed, and returns its sink.
///
/// The sink was given the magic and the records of the entries that the recorder has kept. If a
/// write failed it was given a prefix of them, after which a prefix of one more record may follow.
///
/// `None`: the thread has not returned within a second, for example because nobody reads what it
/// writes. It keeps the sink, and the record isn't whole.
pub fn end_record<W: Threads + Wait + Drop, K: Sink + Drop, B: Named>(
    rt: &W,
    recorder: LiveRecorder<W, B>,
    writing: Writing<W, K>,
) -> Option<Settled<K>>
    requires { Some writing.thread.promise.input.value.pipe ≡ B.pipe }
    ensures { IfSome result (λ settled. (kept : List Entry) → Keeps recorder kept
        → (had : List ℕ) → K.written writing.thread.promise.sink.value ≡ Some had
        → ServesCapture had (K.written settled.sink) settled.whole (live_faults recorder) kept) }
{
    writing.state.end();
    let end = recorder.finish()?;
    let settled = writing.settle(rt, end)?;
    Some(settled)
}

impl<W: Wait + Drop, B: Named> Recorder for LiveRecorder<W, B> {
    ghost use Rattle.std.specs.Prelude.{None};
    ghost use Rattle.adb_os_record.specs.Live.{Keeps, live_faults};

    ghost told = { λ r. None };

    ghost stands = { Keeps };

    ghost faults = { live_faults };

    ghost steady = { λ r. ⊥ };

    /// Writes the record of the entry if the recorder is on.
    ///
    /// `Failed`: a write into the pipe failed. Every later call returns `Failed`.
    fn keep(&mut self, entry: &Entry) -> Result<(), RecordError> {
        if let Some(recorder) = &mut self.recorder {
            return recorder.keep(entry);
        }
        Ok(())
    }

    /// Writes the record of the piece's entry, as `keep` does.
    fn keep_piece(&mut self, from: Owner, piece: &[u8]) -> Result<(), RecordError> {
        if let Some(recorder) = &mut self.recorder {
            return recorder.keep_piece(from, piece);
        }
        Ok(())
    }
}
