//! Connections that no worker of a server reads yet.

use std::alloc::Global;
use std::collections::VecDeque;
use std::io;
use std::net::{TcpListener, TcpStream};
use std::sync::{Arc, Mutex, OnceLock, Wait};

/// A request to end the server, as a client sends it. The hub decides what it means.
pub const KILL: [u8; 13] = *b"0009host:kill";

/// The maximum number of connections that are accepted before the door takes them. So many more
/// wait in the queue of the system.
const MAX_EARLY: usize = 128;

/// The connections that no worker reads yet.
#[derive(Drop)]
struct Unread {
    /// Whether the door waits for connections.
    is_awaited: bool,
    /// The connection that the door returned last, until the door waits again.
    entering: Option<Arc<TcpStream, Global>>,
    /// Connections that were accepted while the door did not wait, the oldest first.
    early: VecDeque<TcpStream>,
}

/// The connections to a server that no worker reads yet. A write of the record that waits looks
/// for a kill among them, because the hall's lock, which it holds, keeps the door from them.
#[derive(Drop)]
pub struct Lookout {
    listener: OnceLock<TcpListener>,
    unread: Mutex<Unread>,
}

impl Lookout {
    /// Makes a lookout without a listener and without connections. It allocates nothing.
    pub(crate) fn new(alloc: Global) -> Lookout {
        Lookout {
            listener: OnceLock::new(),
            unread: Mutex::new(Unread {
                is_awaited: false,
                entering: None,
                early: VecDeque::new(alloc),
            }),
        }
    }

    /// Looks from now on at the connections that come to a listener whose accepts don't block.
    ///
    /// Fails if the system has no descriptor. Only the first listener is looked at.
    pub fn watch(&self, listener: &TcpListener) -> io::Result<()> {
        let _ = self.listener.try_set(listener.try_clone()?);
        Ok(())
    }

    /// Returns a connection that was accepted early, the oldest. The door calls it before it waits.
    pub fn take_early<W: Wait>(&self, rt: &W) -> Option<TcpStream> {
        let mut unread = self.unread.lock(rt);
        unread.is_awaited = true;
        unread.entering = None;
        unread.early.pop_front()
    }

    /// Says that the door no longer waits for connections.
    pub fn leave<W: Wait>(&self, rt: &W) {
        self.unread.lock(rt).is_awaited = false;
    }

    /// Says that the door no longer waits, since it returns a connection.
    pub(crate) fn enter<W: Wait>(&self, rt: &W, stream: &Arc<TcpStream, Global>) {
        let mut unread = self.unread.lock(rt);
        unread.is_awaited = false;
        unread.entering = Arc::try_clone(stream).ok();
    }

    /// Returns whether a connection that no worker reads yet asks for a kill. Does not wait for
    /// connections or bytes.
    ///
    /// While the door waits for connections, it takes them itself. Otherwise this accepts them in its
    /// place.
    pub(crate) fn sees_a_kill<W: Wait>(&self, rt: &W) -> bool {
        let mut unread = self.unread.lock(rt);
        let unread = &mut *unread;
        if unread.is_awaited {
            return false;
        }
        if let Some(entering) = &unread.entering {
            if asks_for_a_kill(entering) {
                return true;
            }
        }
        if let Some(listener) = self.listener.get() {
            accept_all(listener, &mut unread.early);
        }
        unread.early.iter().any(asks_for_a_kill)
    }
}

/// Accepts the connections that wait at a listener. Those that find no place stay where they are.
fn accept_all(listener: &TcpListener, early: &mut VecDeque<TcpStream>) {
    for _ in early.len()..MAX_EARLY {
        if early.reserve(1).is_err() {
            return;
        }
        let Ok((stream, _)) = listener.accept() else {
            return;
        };
        early.push_back_reserved(stream);
    }
}

/// Returns whether the first bytes that wait at a connection ask for a kill. The bytes stay there.
fn asks_for_a_kill(stream: &TcpStream) -> bool {
    let mut start = [0; KILL.len()];
    if stream.set_nonblocking(true).is_err() {
        return false;
    }
    let peeked = stream.peek(&mut start);
    let _ = stream.set_nonblocking(false);
    matches!(peeked, Ok(count) if count == KILL.len()) && start == KILL
}
