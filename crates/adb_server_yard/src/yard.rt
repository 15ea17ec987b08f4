//! The trait of yards, which are the environments of servers.

use adb_binder::Binder;
use adb_connections::{Bell, Device, Door, Gate, PortIn, PortOut};
use adb_recorder::Recorder;

/// The result of `Yard::listen`.
#[derive(Drop)]
pub enum Listening<D: Drop, B: Drop> {
    /// The door that accepts clients, its bell, and the port on which it listens, which is not 0.
    Here(D, B, u16),
    /// Listening on the port failed.
    Failed,
}

/// The result of `Yard::dial`.
#[derive(Drop)]
pub enum Dialled<I: Drop, O: Drop> {
    /// The two halves of a connection to a server.
    Here(I, O),
    /// The connection failed.
    Failed,
}

/// The worker pool that runs the jobs of a server.
#[derive(Drop)]
pub enum PoolKind {
    /// Each job runs in a thread of its own.
    Threads,
    /// Each job runs within the call that submits it. `failing` lists submissions by their numbers,
    /// counted from 1; these return their job without running it.
    Inline { failing: Vec<u64> },
}

/// The environment of a server, and the connections of client tools.
///
/// `listen` and `dial` can fail and report that in their results. No other call fails.
pub trait Yard: Drop {
    ghost use Rattle.std.specs.Prelude.{◌≡◌, ◌<◌, ℕ, List, [], Bool, Option, false, ⊤};
    ghost use Rattle.adb_outside.specs.Outside.{Counts};
    ghost use Rattle.adb_server_log.specs.Log.{IsFresh};
    ghost use Rattle.adb_server_yard.specs.Yard.{FitsPort, HasDoor, IsHere, IsSteadyKind, is_deaf};
    ghost use Rattle.adb_server_yard.specs.Yard.{HasDialled, is_unreached};

    type Door: Door;

    type Bell: Bell;

    type Keeper: Recorder + Send + 'static;

    type Ports: Binder + Send + Drop + 'static;

    type Gate: Gate + Send + Drop + 'static;

    type DialIn: PortIn + Drop;

    type DialOut: PortOut + Drop;

    /// The number of failed calls. A count at its largest value counts as having risen.
    ghost faults: { Self → ℕ };

    /// Neither the yard nor any object that it returns ever fails.
    ghost steady: { Self → Type 0 };

    /// No door that it returns ever returns `Closed`.
    ghost lasting: { Self → Type 0 };

    /// The bytes that the next dialled connection will yield, if the yard shows them to contracts.
    ghost answers: { Self → Option (List ℕ) };

    /// The port on which the yard listens if `listen` is called with this port, if the yard shows
    /// it to contracts.
    ghost here: { Self → ℕ → Option ℕ };

    /// The yard has a recorder for a server that keeps its history (`true`) or does not keep it
    /// (`false`). A yard that was made for one of the two has no recorder for the other.
    ghost records: { Self → Bool → Type 0 };

    /// Listens on a port of this machine, or on any free port if `port` is 0.
    ///
    /// `Failed`: listening on the port failed, and the count of faults rises. No other result
    /// changes the count.
    fn listen(&mut self, port: u16) -> Listening<Self::Door, Self::Bell>
        ensures fits { FitsPort port result }
        ensures here { IsHere (here self.old port) result }
        ensures records { (wanted : Bool) → records self.old wanted → records self.new wanted }
        ensures counts { Counts steady faults self.old self.new (is_deaf result) }
        ensures steady { steady self.old → HasDoor Self.Door.steady result }
        ensures lasting { lasting self.old → HasDoor Self.Door.lasting result };

    /// Returns the recorder of a server. It has kept no entry. If `wanted`, it keeps the history;
    /// otherwise it may discard every entry.
    fn recorder(&mut self, wanted: bool) -> Self::Keeper
        requires { records self.old wanted }
        ensures count { Self.Keeper.faults result ≡ 0 }
        ensures fresh { IsFresh (Self.Keeper.told result) }
        ensures stands { Self.Keeper.stands result [] }
        ensures counts { Counts steady faults self.old self.new false }
        ensures steady { steady self.old → Self.Keeper.steady result };

    /// Returns how the jobs of a server are run.
    fn pool_kind(&mut self) -> PoolKind
        ensures counts { Counts steady faults self.old self.new false }
        ensures steady { steady self.old → IsSteadyKind result };

    /// Returns a binder for the forwards of one more client.
    fn ports(&mut self) -> Self::Ports
        ensures counts { Counts steady faults self.old self.new false }
        ensures steady { steady self.old → Self.Ports.steady result };

    /// Returns a gate for one more worker.
    fn gate(&mut self) -> Self::Gate
        ensures counts { Counts steady faults self.old self.new false };

    /// Connects to a server on this machine.
    ///
    /// `Failed`: the connection failed, and the count of faults rises. No other result changes the
    /// count.
    fn dial(&mut self, port: u16) -> Dialled<Self::DialIn, Self::DialOut>
        requires { 0 < port }
        ensures counts { Counts steady faults self.old self.new (is_unreached result) }
        ensures steady { steady self.old
            → HasDialled Self.DialIn.steady Self.DialOut.steady result }
        ensures answers { HasDialled (λ input. Self.DialIn.left input ≡ answers self.old)
            (λ output. ⊤) result };
}

/// A device of a yard: one that comes through its door, or one that a server over the yard is
/// given.
pub type YardDevice<Y: Yard> = Device<
    <<Y as Yard>::Door as Door>::DeviceIn,
    <<Y as Yard>::Door as Door>::DeviceOut,
>;
