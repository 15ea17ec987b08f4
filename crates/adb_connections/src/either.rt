//! The halves of a device of one of two types.

use crate::device::{DeviceIn, DeviceOut, Plug};
use adb_outside::{Got, Wrote};

/// The input half of a device of one of two kinds. Contracts see it as the half of that device.
#[derive(Drop)]
pub enum EitherIn<A: DeviceIn, B: DeviceIn> {
    First(A),
    Second(B),
}

impl<A: DeviceIn, B: DeviceIn> DeviceIn for EitherIn<A, B> {
    ghost use Rattle.adb_connections.specs.Either.{holds_in, of_in};

    ghost faults = { λ device. of_in A.faults B.faults device };

    ghost left = { λ device. of_in A.left B.left device };

    ghost plugs = { λ device. of_in A.plugs B.plugs device };

    ghost steady = { λ device. holds_in A.steady B.steady device };

    fn plug(&mut self) -> Plug {
        match self {
            EitherIn::First(device) => device.plug(),
            EitherIn::Second(device) => device.plug(),
        }
    }

    fn read(&mut self, into: &mut [u8]) -> Got {
        match self {
            EitherIn::First(device) => device.read(into),
            EitherIn::Second(device) => device.read(into),
        }
    }
}

/// The output half of a device of one of two kinds. Contracts see it as the half of that device.
#[derive(Drop)]
pub enum EitherOut<A: DeviceOut, B: DeviceOut> {
    First(A),
    Second(B),
}

impl<A: DeviceOut, B: DeviceOut> DeviceOut for EitherOut<A, B> {
    ghost use Rattle.adb_connections.specs.Either.{holds_out, of_out};

    ghost faults = { λ device. of_out A.faults B.faults device };

    ghost written = { λ device. of_out A.written B.written device };

    ghost closed = { λ device. of_out A.closed B.closed device };

    ghost steady = { λ device. holds_out A.steady B.steady device };

    fn write(&mut self, piece: &[u8]) -> Wrote {
        match self {
            EitherOut::First(device) => device.write(piece),
            EitherOut::Second(device) => device.write(piece),
        }
    }

    fn write_both(&mut self, start: &[u8], rest: &[u8]) -> Wrote {
        match self {
            EitherOut::First(device) => device.write_both(start, rest),
            EitherOut::Second(device) => device.write_both(start, rest),
        }
    }

    fn unplug(&mut self) {
        match self {
            EitherOut::First(device) => device.unplug(),
            EitherOut::Second(device) => device.unplug(),
        }
    }
}
