//! The two halves of a device's link, over the ends of two pipes.

ghost use Rattle.std.specs.Prelude.{◌≡◌, ◌≤◌, ◌++◌, false, length, IfOk};

use adb_connections::{DeviceIn, DeviceOut, Plug};
use adb_outside::{Got, Text, Wrote};
use adb_pipe::{PipeIn, PipeOut, Taken};
use std::alloc::{AllocError, Global};
use std::sync::Wait;

/// A chunk of which a prefix was read.
#[derive(Drop)]
struct Reading {
    chunk: Text,
    read: usize,
}

impl Reading {
    /// Reads as many of the remaining bytes as fit, and returns how many.
    fn read(&mut self, into: &mut [u8]) -> usize
        ensures { result ≤ length into.old }
    {
        let left = &self.chunk.as_slice()[self.read.min(self.chunk.len())..];
        let count = left.len().min(into.len());
        into[..count].copy_from_slice(&left[..count]);
        self.read = self.read.saturating_add(count);
        count
    }
}

/// The output of a device in a thread of its own: the chunks that it put into a pipe. It is plugged
/// in from the start. A lost pipe is a fault. Contracts do not see its bytes.
#[derive(Drop)]
pub struct PipeDeviceIn<W: Wait + Drop> {
    input: PipeIn<W>,
    reading: Reading,
    ended: bool,
    faults: u64,
}

impl<W: Wait + Drop> PipeDeviceIn<W> {
    /// Makes the input half of the device that puts into this pipe. It allocates nothing.
    pub fn new(alloc: Global, input: PipeIn<W>) -> PipeDeviceIn<W>
        ensures { result.faults ≡ 0 }
    {
        PipeDeviceIn {
            input,
            reading: Reading {
                chunk: Text::new(alloc),
                read: 0,
            },
            ended: false,
            faults: 0,
        }
    }
}

impl<W: Wait + Drop> DeviceIn for PipeDeviceIn<W> {
    ghost use Rattle.std.specs.Prelude.{None};

    ghost faults = { λ device. device.faults };

    ghost left = { λ device. None };

    ghost plugs = { λ device. None };

    ghost steady = { λ device. ⊥ };

    /// Reports that the device is plugged in.
    fn plug(&mut self) -> Plug {
        Plug::Here
    }

    /// Returns bytes of the current chunk, or waits for the next one if none is left. After the end
    /// each call returns `End`.
    fn read(&mut self, into: &mut [u8]) -> Got {
        for _ in 0..u64::MAX {
            let count = self.reading.read(into);
            if count > 0 {
                return Got::Bytes(count);
            }
            if self.ended {
                return Got::End;
            }
            match self.input.take() {
                Taken::Chunk(chunk) => self.reading = Reading { chunk, read: 0 },
                Taken::End => self.ended = true,
                Taken::Lost => break,
            }
        }
        self.faults = self.faults.saturating_add(1);
        Got::Failed
    }
}

/// The input of a device in a thread of its own: each piece is a chunk of a pipe. A write fails if
/// an allocation fails, and after `unplug`. Contracts do not see its bytes.
#[derive(Drop)]
pub struct PipeDeviceOut<W: Wait + Drop> {
    alloc: Global,
    output: Option<PipeOut<W>>,
    closed: bool,
    faults: u64,
}

impl<W: Wait + Drop> PipeDeviceOut<W> {
    /// Makes the output half of the device that takes from this pipe. It allocates nothing.
    pub fn new(alloc: Global, output: PipeOut<W>) -> PipeDeviceOut<W>
        ensures { (result.faults ≡ 0) × (result.closed ≡ false) }
    {
        PipeDeviceOut {
            alloc,
            output: Some(output),
            closed: false,
            faults: 0,
        }
    }

    /// Puts a piece in two parts as one chunk. Returns whether the allocation succeeded and the
    /// pipe took the chunk.
    fn put(&mut self, start: &[u8], rest: &[u8]) -> bool
        ensures { (self.new.faults ≡ self.old.faults) × (self.new.closed ≡ self.old.closed) }
    {
        let Some(output) = &mut self.output else {
            return false;
        };
        match joined(self.alloc, start, rest) {
            Ok(chunk) => output.put(chunk).is_ok(),
            Err(_) => false,
        }
    }
}

/// Returns a chunk of two parts, the first before the second.
fn joined(alloc: Global, start: &[u8], rest: &[u8]) -> Result<Text, AllocError>
    ensures { IfOk result (λ chunk. chunk ≡ start.now ++ rest.now) }
{
    let mut bytes = Vec::with_capacity(alloc, start.len() + rest.len())?;
    bytes.extend_from_slice(start)?;
    bytes.extend_from_slice(rest)?;
    Ok(Text::from_vec(bytes))
}

impl<W: Wait + Drop> DeviceOut for PipeDeviceOut<W> {
    ghost use Rattle.std.specs.Prelude.{None};

    ghost faults = { λ device. device.faults };

    ghost written = { λ device. None };

    ghost closed = { λ device. device.closed };

    ghost steady = { λ device. ⊥ };

    /// Writes a piece. Blocks while the pipe is full. A write that fails takes nothing.
    fn write(&mut self, piece: &[u8]) -> Wrote {
        self.write_both(&[], piece)
    }

    /// Writes both parts as one chunk.
    fn write_both(&mut self, start: &[u8], rest: &[u8]) -> Wrote {
        if self.put(start, rest) {
            return Wrote::All;
        }
        self.faults = self.faults.saturating_add(1);
        Wrote::Failed { taken: 0 }
    }

    /// Finishes the pipe.
    fn unplug(&mut self) {
        if let Some(output) = self.output.take() {
            output.finish();
        }
        self.closed = true;
    }
}
