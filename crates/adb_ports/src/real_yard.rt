//! The yard of a live server.

ghost use Rattle.std.specs.Prelude.{◌≡◌, false, IfSome};
ghost use Rattle.adb_server_yard.specs.Yard.{FitsPort, is_deaf};

use crate::live_door::LiveDoor;
use adb_connections::OpenGate;
use adb_os_door::{Deliveries, Entrance, Listeners, TcpBell, TcpBinder};
use adb_os_record::{LiveRecorder, Named, PipeSink};
use adb_os_sockets::{Ending, TcpIn, TcpOut, halves};
use adb_server_yard::{Dialled, Listening, PoolKind, Yard};
use std::alloc::Global;
use std::io;
use std::net::{Net, SocketAddr, TcpListener, TcpStream};
use std::sync::{Arc, Wait};
use std::thread::Threads;

/// The yard of a live server: sockets of this machine, threads, and the pipe of its record.
/// Contracts see nothing of the objects that it returns.
///
/// A yard with an unused sink has the recorder of one server that keeps its history. If `B` names
/// no pipe, the yard has recorders for servers that keep no history; these recorders are off.
#[derive(Drop)]
pub struct RealYard<
    W: Net<Listener = TcpListener, Stream = TcpStream>
        + Threads
        + Wait
        + Copy
        + Send
        + Sync
        + Drop
        + 'static,
    B: Named + Send + 'static,
> {
    rt: W,
    alloc: Global,
    ending: Ending,
    deliveries: Option<Arc<Deliveries, Global>>,
    listeners: Option<Arc<Listeners, Global>>,
    sink: Option<PipeSink<W, B>>,
    faults: u64,
}

impl<
    W: Net<Listener = TcpListener, Stream = TcpStream>
        + Threads
        + Wait
        + Copy
        + Send
        + Sync
        + Drop
        + 'static,
    B: Named + Send + 'static,
> RealYard<W, B> {
    /// Makes a yard with a recorder that writes to this sink. Its bell sets `ending`; devices that
    /// share the flag then stop writing. Its door takes the devices of the deliveries, or none
    /// without deliveries. It allocates nothing.
    pub fn new(
        rt: W,
        alloc: Global,
        ending: Ending,
        deliveries: Option<Arc<Deliveries, Global>>,
        sink: Option<PipeSink<W, B>>,
    ) -> RealYard<W, B>
        ensures { (result.faults ≡ 0) × (result.sink ≡ sink) }
    {
        RealYard {
            rt,
            alloc,
            ending,
            deliveries,
            listeners: None,
            sink,
            faults: 0,
        }
    }
}

/// Returns a listener on a port of this machine, or on any free port if `port` is 0, and its
/// address.
fn open<W: Net<Listener = TcpListener, Stream = TcpStream>>(
    rt: &W,
    port: u16,
) -> io::Result<(TcpListener, SocketAddr)> {
    let listener = TcpListener::bind(rt, ("127.0.0.1", port))?;
    let address = listener.local_addr()?;
    Ok((listener, address))
}

/// Returns a door and its bell at a port of this machine, and the listeners that they share. The
/// deliveries are open from then on. If the server is recorded, the lookout watches the port.
fn listen<W: Net<Listener = TcpListener, Stream = TcpStream> + Wait + Copy + Drop>(
    rt: W,
    alloc: Global,
    ending: &Ending,
    deliveries: &Option<Arc<Deliveries, Global>>,
    port: u16,
    is_recorded: bool,
) -> Option<(Listening<LiveDoor<W>, TcpBell>, Arc<Listeners, Global>)>
    ensures { IfSome result (λ here. FitsPort port here.0 × (is_deaf here.0 ≡ false)) }
{
    let (listener, address) = open(&rt, port).ok()?;
    let bound = address.port();
    if bound == 0 || port != 0 && bound != port {
        return None;
    }
    if is_recorded {
        ending.lookout().watch(&listener).ok()?;
    }
    let Entrance {
        door,
        bell,
        listeners,
    } = Entrance::new(rt, alloc, listener, ending, deliveries).ok()?;
    Some((Listening::Here(LiveDoor::new(door), bell, bound), listeners))
}

/// Connects to a port of this machine and returns the two halves of the connection.
fn dial<W: Net<Listener = TcpListener, Stream = TcpStream>>(
    rt: &W,
    alloc: Global,
    ending: &Ending,
    port: u16,
) -> io::Result<(TcpIn, TcpOut)> {
    halves(alloc, TcpStream::connect(rt, ("127.0.0.1", port))?, ending)
}

impl<
    W: Net<Listener = TcpListener, Stream = TcpStream>
        + Threads
        + Wait
        + Copy
        + Send
        + Sync
        + Drop
        + 'static,
    B: Named + Send + 'static,
> Yard for RealYard<W, B> {
    type Door = LiveDoor<W>;

    type Bell = TcpBell;

    type Keeper = LiveRecorder<W, B>;

    type Ports = TcpBinder<W>;

    type Gate = OpenGate;

    type DialIn = TcpIn;

    type DialOut = TcpOut;

    ghost use Rattle.std.specs.Prelude.{◌≡◌, true, false, None};
    ghost use Rattle.adb_os_record.specs.Live.{IsUnused};

    ghost faults = { λ yard. yard.faults };

    ghost steady = { λ yard. ⊥ };

    ghost lasting = { λ yard. ⊥ };

    ghost answers = { λ yard. None };

    ghost here = { λ yard port. None };

    ghost records = { λ yard wanted. (wanted ≡ true → IsUnused yard.sink)
        × (wanted ≡ false → B.pipe ≡ None) };

    /// Listens on the loopback interface only.
    fn listen(&mut self, port: u16) -> Listening<LiveDoor<W>, TcpBell> {
        let is_recorded = self.sink.is_some();
        match listen(
            self.rt,
            self.alloc,
            &self.ending,
            &self.deliveries,
            port,
            is_recorded,
        ) {
            Some((listening, listeners)) => {
                self.listeners = Some(listeners);
                listening
            }
            None => {
                self.faults = self.faults.saturating_add(1);
                Listening::Failed
            }
        }
    }

    /// Returns a recorder that is on if `wanted`.
    fn recorder(&mut self, wanted: bool) -> LiveRecorder<W, B> {
        if !wanted {
            return LiveRecorder::off();
        }
        let Some(sink) = self.sink.take() else {
            unreachable!()
        };
        LiveRecorder::on(sink)
    }

    fn pool_kind(&mut self) -> PoolKind {
        PoolKind::Threads
    }

    fn ports(&mut self) -> TcpBinder<W> {
        let listeners = match &self.listeners {
            Some(listeners) => Arc::try_clone(listeners).ok(),
            None => None,
        };
        TcpBinder::new(self.rt, listeners)
    }

    fn gate(&mut self) -> OpenGate {
        OpenGate::new()
    }

    /// Connects as the system does, without a timeout of its own.
    fn dial(&mut self, port: u16) -> Dialled<TcpIn, TcpOut> {
        match dial(&self.rt, self.alloc, &self.ending, port) {
            Ok((input, output)) => Dialled::Here(input, output),
            Err(_) => {
                self.faults = self.faults.saturating_add(1);
                Dialled::Failed
            }
        }
    }
}
