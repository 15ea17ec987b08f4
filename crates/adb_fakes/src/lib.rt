//! Fakes of the environment of a server: clients, doors, recorders and yards in memory. A test
//! reads their contents while a server runs and after it. `FakeYard` fails at the calls that a test
//! chooses; `CalmYard` never fails.
#![tactic(auto)]

mod calm_door;
mod calm_out;
mod calm_yard;
mod door;
mod lines;
mod recorder;
mod sent;
mod yard;

pub use calm_door::{CalmBinder, CalmDoor};
pub use calm_out::CalmOut;
pub use calm_yard::CalmYard;
pub use door::{FakeDevice, FakeDoor, Rings};
pub use lines::lines_of;
pub use recorder::{Kept, SharedRecorder};
pub use sent::{Sent, SharedOut};
pub use yard::FakeYard;
