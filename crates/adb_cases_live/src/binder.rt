//! Ports bound in memory, and sets of ports.

use adb_binder::*;
use std::alloc::{AllocError, Global};

/// The ports that are asked for, and the answers. The second call fails.
const BOUND: &[(u16, u16)] = &[
    (40_000, 40_000),
    (5037, 0),
    (40_000, 40_000),
    (0, 65_535),
    (0, 0),
];

fn gives_what_is_asked(binder: &mut MemoryBinder) -> bool {
    for &(port, _) in BOUND {
        let _ = binder.bind(port);
    }
    binder.answered() == Some(BOUND)
}

pub fn binders_give_what_is_asked(alloc: Global) -> Result<bool, AllocError> {
    let mut binder = MemoryBinder::new(alloc, 65_535, Vec::from_slice(alloc, &[2])?);
    Ok(gives_what_is_asked(&mut binder))
}

fn opens(ports: &mut OpenPorts) -> Result<bool, AllocError> {
    ports.add(40_000)?;
    Ok(ports.opened(40_000) && !ports.opened(40_001))
}

pub fn ports_are_opened(alloc: Global) -> Result<bool, AllocError> {
    let mut ports = OpenPorts::new(alloc);
    opens(&mut ports)
}
