//! One job for each worker of a server.

use crate::context::Context;
use crate::parts::Parts;
use adb_server_client_reader::{close_unused, read_client};
use adb_server_device_reader::{Packets, read_device};
use adb_server_log::{ClientIn, ClientOut, LinkIn, LinkOut};
use adb_server_writers::{write_client, write_device};
use adb_spawner::Job;
use std::sync::Wait;

/// The inputs of one worker: its context, its pass, its half of the connection, and an aid that
/// depends on the kind of worker.
#[derive(Drop)]
pub struct Task<C: Drop, T: Drop, H: Drop, A: Drop> {
    pub context: C,
    pub pass: T,
    pub port: H,
    /// The binder of a client's reader; the packets of a device's reader; `()` for a writer.
    pub aid: A,
}

/// A job: one worker, which runs until the server stops serving its client or device.
#[derive(Drop)]
pub enum Work<W: Wait + Copy + Drop, P: Parts> {
    ReadClient(
        Task<Context<W, P>, ClientIn<P::Entries, P::Moved, P::Marks>, P::ClientIn, P::Binder>,
    ),
    WriteClient(Task<Context<W, P>, ClientOut<P::Entries, P::Moved, P::Marks>, P::ClientOut, ()>),
    ReadDevice(Task<Context<W, P>, LinkIn<P::Entries, P::Moved, P::Marks>, P::DeviceIn, Packets>),
    WriteDevice(Task<Context<W, P>, LinkOut<P::Entries, P::Moved, P::Marks>, P::DeviceOut, ()>),
}

impl<W: Wait + Copy + Drop, P: Parts> Job for Work<W, P> {
    ghost done = { λ job. Unit {0} };

    /// Runs the worker, gives its pass back to the hall, and rings the bell of the door if no
    /// client can come any more.
    fn run(self) {
        match self {
            Work::ReadClient(task) => read_one_client(task),
            Work::WriteClient(task) => write_one_client(task),
            Work::ReadDevice(task) => read_one_device(task),
            Work::WriteDevice(task) => write_one_device(task),
        }
    }
}

fn read_one_client<W: Wait + Copy + Drop, P: Parts>(
    task: Task<Context<W, P>, ClientIn<P::Entries, P::Moved, P::Marks>, P::ClientIn, P::Binder>,
) {
    let Task {
        context,
        pass,
        port,
        aid,
    } = task;
    let (mut own, mut port, mut ports) = (context, port, aid);
    let pass = read_client(
        own.rt,
        &mut own.hall,
        &mut port,
        pass,
        &mut ports,
        &own.gate,
    );
    close_unused(&mut own.hall, &mut ports);
    let over = own.hall.retire_client_in(pass);
    own.ring_if(over);
}

fn write_one_client<W: Wait + Copy + Drop, P: Parts>(
    task: Task<Context<W, P>, ClientOut<P::Entries, P::Moved, P::Marks>, P::ClientOut, ()>,
) {
    let Task {
        context,
        pass,
        port,
        ..
    } = task;
    let (mut own, mut port) = (context, port);
    let pass = write_client(own.rt, &mut own.hall, &mut port, pass, &own.gate);
    let over = own.hall.retire_client_out(pass);
    own.ring_if(over);
}

fn read_one_device<W: Wait + Copy + Drop, P: Parts>(
    task: Task<Context<W, P>, LinkIn<P::Entries, P::Moved, P::Marks>, P::DeviceIn, Packets>,
) {
    let Task {
        context,
        pass,
        port,
        aid,
    } = task;
    let (mut own, mut port, mut packets) = (context, port, aid);
    packets.clear();
    let pass = read_device(own.rt, &mut own.hall, &mut port, pass, packets, &own.gate);
    let over = own.hall.retire_link_in(pass);
    own.ring_if(over);
}

fn write_one_device<W: Wait + Copy + Drop, P: Parts>(
    task: Task<Context<W, P>, LinkOut<P::Entries, P::Moved, P::Marks>, P::DeviceOut, ()>,
) {
    let Task {
        context,
        pass,
        port,
        ..
    } = task;
    let (mut own, mut port) = (context, port);
    let pass = write_device(own.rt, &mut own.hall, &mut port, pass, &own.gate);
    let over = own.hall.retire_link_out(pass);
    own.ring_if(over);
}
