//! Cases of clients' requests.

use crate::telling::{tell_bytes, tell_number, tell_value};
use adb_outside::{Selector, Text};
use adb_request::{Request, Which, cut, hex4, read, read_hex4};
use std::alloc::{AllocError, Global};

/// Appends the number that bytes are in hexadecimal digits, and the kind of their beginning.
pub fn tell_cut(alloc: Global, bytes: &[u8], told: &mut Text) -> Result<(), AllocError> {
    tell_value(alloc, told, (read_hex4(bytes), cut(bytes)))
}

/// Appends the meaning of a request.
pub fn tell(alloc: Global, text: &[u8], told: &mut Text) -> Result<(), AllocError> {
    let request = read(alloc, text)?;
    tell_request(&request, told)
}

fn tell_request(request: &Request, told: &mut Text) -> Result<(), AllocError> {
    match request {
        Request::Version => told.push_slice(b"\nversion"),
        Request::Kill => told.push_slice(b"\nkill"),
        Request::Devices { long } => tell_list(told, b"\ndevices", *long),
        Request::Track { long } => tell_list(told, b"\ntrack", *long),
        Request::Transport { by, tell_id } => tell_transport(told, by, *tell_id),
        Request::Serialno(on) => tell_on(told, b"\nserialno", on),
        Request::Devpath(on) => tell_on(told, b"\ndevpath", on),
        Request::GetState(on) => tell_on(told, b"\nstate", on),
        Request::Features(on) => tell_on(told, b"\nfeatures", on),
        Request::Forward {
            on,
            norebind,
            local,
            remote,
        } => tell_forward(told, on, *norebind, *local, remote),
        Request::BadForward => told.push_slice(b"\nbad forward"),
        Request::KillForward(port) => tell_port(told, b"\nkill forward ", *port),
        Request::KillAll => told.push_slice(b"\nkill all"),
        Request::ListForward => told.push_slice(b"\nlist forwards"),
        Request::Service(service) => tell_bytes(told, b"\nservice ", service.as_slice()),
        Request::UnknownHost => told.push_slice(b"\nunknown"),
    }
}

fn tell_list(told: &mut Text, word: &[u8], long: bool) -> Result<(), AllocError> {
    told.push_slice(word)?;
    told.push_slice(if long { b" long" } else { b"" })
}

fn tell_transport(told: &mut Text, by: &Selector, tell_id: bool) -> Result<(), AllocError> {
    told.push_slice(if tell_id {
        b"\ntransport and id"
    } else {
        b"\ntransport"
    })?;
    tell_by(told, by)
}

fn tell_forward(
    told: &mut Text,
    on: &Which,
    norebind: bool,
    local: u16,
    remote: &Text,
) -> Result<(), AllocError> {
    tell_on(
        told,
        if norebind {
            b"\nnew forward"
        } else {
            b"\nforward"
        },
        on,
    )?;
    tell_port(told, b" ", local)?;
    tell_bytes(told, b" to ", remote.as_slice())
}

fn tell_on(told: &mut Text, word: &[u8], on: &Which) -> Result<(), AllocError> {
    told.push_slice(word)?;
    match on {
        Which::Own => told.push_slice(b" own"),
        Which::By(by) => tell_by(told, by),
    }
}

fn tell_by(told: &mut Text, by: &Selector) -> Result<(), AllocError> {
    match by {
        Selector::Any => told.push_slice(b" any"),
        Selector::Usb => told.push_slice(b" usb"),
        Selector::Local => told.push_slice(b" local"),
        Selector::Serial(serial) => tell_bytes(told, b" ", serial.as_slice()),
        Selector::Id(id) => tell_number(told, b" #", u64::from(*id)),
    }
}

/// Appends a word, and then a port in hexadecimal digits.
fn tell_port(told: &mut Text, word: &[u8], port: u16) -> Result<(), AllocError> {
    told.push_slice(word)?;
    told.push_slice(&hex4(port))
}
