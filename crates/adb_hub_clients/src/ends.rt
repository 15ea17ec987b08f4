//! The end of a client's input.

ghost use Rattle.adb_outside.specs.declared.kinds.Cause.TheVariants.{Eof};
ghost use Rattle.adb_capture.specs.declared.entry.Entry.TheVariants.{End};
ghost use Rattle.adb_client.specs.declared.phase.Phase.TheVariants.{Streaming};
ghost use Rattle.adb_history.specs.Moves.{IsClientIn};
ghost use Rattle.adb_hub_tables.specs.Endings.{Tells};
ghost use Rattle.adb_hub_tables.specs.Fit.{IsFit, IsReached, Makes};
ghost use Rattle.adb_hub_tables.specs.Tables.{state_of};

use adb_client::Phase;
use adb_hub_rules::{close_idle, end_client, phase_of};
use adb_hub_tables::{Endings, Tables};
use adb_outside::Cause;

/// Ends a client's input, in order or by a failure. It allocates nothing. A stream that ends is
/// recorded, in a spare place of the log.
pub fn end(tables: &mut Tables, ends: &mut Endings, client: u32, cause: Cause)
    requires fit { IsFit tables.old }
    requires reached { IsReached (state_of tables.old) }
    ensures made { Makes (End client cause) tables.old tables.new }
    ensures told { Tells (End client cause) ends.old tables.old ends.new }
{
    match cause {
        Cause::Eof => end_input(tables, ends, client),
        _ => end_client(tables, ends, client, cause),
    }
}

/// Ends a client's input in order.
fn end_input(tables: &mut Tables, ends: &mut Endings, client: u32)
    requires fit { IsFit tables.old }
    requires reached { IsReached (state_of tables.old) }
    ensures made { Makes (End client Eof) tables.old tables.new }
    ensures told { Tells (End client Eof) ends.old tables.old ends.new }
{
    match phase_of(tables, client) {
        Phase::Streaming(id) => end_open(tables, ends, client, id),
        _ => end_client(tables, ends, client, Cause::Eof),
    }
}

/// Ends the input of a client that has its stream open, in order. If none of its bytes are held,
/// the stream ends. No bytes can be sent by this, since none could before.
fn end_open(tables: &mut Tables, ends: &mut Endings, client: u32, stream: u32)
    requires fit { IsFit tables.old }
    requires reached { IsReached (state_of tables.old) }
    requires open { IsClientIn (state_of tables.old) client (Streaming stream) }
    ensures made { Makes (End client Eof) tables.old tables.new }
    ensures told { Tells (End client Eof) ends.old tables.old ends.new }
{
    end_client(tables, ends, client, Cause::Eof);
    close_idle(tables, ends, stream);
}
