//! The phase of a client.

/// The phase of a client. A client that is closing and has an empty output queue is gone at once.
///
/// ```text
///           a request of its own     OKAY of the device
/// Asking -----> Opening ----------------> Streaming
///   |    -----> Binding (a forward whose port is being bound)
///   |    -----> Tracking (it is sent each new list of the devices)
///   v
/// Closing, from each of them: its last reply, its stream's end, or the end of its input
///   |
///   v
/// Gone, once its output queue is empty; at once if its connection failed
/// ```
#[derive(Clone, Copy, Debug, PartialEq, Eq, Drop)]
pub enum Phase {
    /// The client's requests are read and answered.
    Asking,
    /// The client asked for a service, and the device has not answered the OPEN of this stream yet.
    Opening(u32),
    /// This stream is open.
    Streaming(u32),
    /// The client asked for a forward with a port that is still to be bound.
    Binding,
    /// The client is sent the list of the devices each time it changes.
    Tracking,
    /// The client's output queue is handed out, and then the client is gone.
    Closing,
    /// Nothing of the client is kept.
    Gone,
}
