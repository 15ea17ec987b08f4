//! The table of forwards.

ghost use Rattle.adb_forward.specs.Forwards.{IsSpecification, IsForwardTable, forward_row, forward_line, forward_list};
ghost use Rattle.adb_outside.specs.Tables.{at, put_at, without, Puts};
ghost use Rattle.std.specs.Bool.{OnFalse};
ghost use Rattle.std.specs.Option.{option_copied};
ghost use Rattle.std.specs.Prelude.{◌≡◌, ◌≤◌, ◌<◌, ◌^◌, ◌++◌, ◌↔◌, ◌==◌, [], length, filter, not, is_some, IsTrue, IsSome, IfOk, OnOk, OnErr};

use crate::row::{ForwardError, ForwardRow};
use adb_outside::{MAX_REMOTE, MAX_SERIAL, Text, is_graphic};
use itoa::Buffer;
use std::alloc::{AllocError, Global};
use std::collections::BTreeMap;
use std::marker::Model;

/// The maximum number of forwards.
pub const MAX_FORWARDS: usize = 64;

/// States the numbers that definitions take from the code.
pub fn limits_are()
    ensures forwards { MAX_FORWARDS ≡ 64 }
{}

/// The forwards, at most 64. Contracts see them as the list of the entries, each a local port and
/// its row, in rising port.
#[derive(Drop)]
pub struct Forwards {
    alloc: Global,
    rows: BTreeMap<u16, ForwardRow>,
}

impl Model for Forwards {
    ghost use Rattle.adb_forward.specs.declared.row.ForwardRow.{ForwardRow};
    ghost use Rattle.std.specs.Prelude.{List, ℕ};

    ghost Value = { List (ℕ × ForwardRow) };

    ghost use Rattle.adb_forward.specs.Forwards.{IsForwardTable};

    ghost view = { λ forwards. forwards.rows.entries };

    ghost invariant = { λ forwards. IsForwardTable forwards.rows.entries };
}

impl Forwards {
    /// Returns a table without rows. Allocates nothing.
    pub fn new(alloc: Global) -> Forwards
        ensures { result ≡ [] }
    {
        Forwards {
            alloc,
            rows: BTreeMap::new(alloc),
        }
    }

    /// Puts a row at the local port, in place of the one that is there. After an error the table is
    /// unchanged. Refusals are checked in the order of `ForwardError`.
    ///
    /// `BadSpec`: returned exactly if the port is 0 or the remote end is not 1 to 512 bytes of 0x21
    /// to 0x7e. `Exists`: exactly if the port has a row and `norebind` asks to keep it. `Full`:
    /// exactly if the port has no row and the table holds 64 rows.
    pub fn put(
        &mut self,
        local: u16,
        transport: u32,
        serial: &[u8],
        remote: &[u8],
        norebind: bool,
    ) -> Result<(), ForwardError>
        requires { length serial.now ≤ MAX_SERIAL }
        ensures ok { OnOk result
            (self.new ≡ put_at local (forward_row local transport serial.now remote.now) self.old) }
        ensures row { OnOk result (Puts local
            (Some (forward_row local transport serial.now remote.now)) self.old self.new) }
        ensures err { OnErr result (self.new ≡ self.old) }
        ensures table { IsForwardTable self.new }

        // In this order.
        ensures bad_spec { (result ≡ Err ForwardError.BadSpec)
            ↔ (¬ (IsSpecification local remote.now)) }
        ensures exists { (result ≡ Err ForwardError.Exists)
            ↔ (IsSpecification local remote.now × IsTrue norebind × IsSome (at local self.old)) }
        ensures full { (result ≡ Err ForwardError.Full)
            ↔ (IsSpecification local remote.now × (at local self.old ≡ None)
            × (length self.old ≡ MAX_FORWARDS)) }
    {
        let is_there = self.rows.contains_key(&local);
        if !is_specification(local, remote) {
            return Err(ForwardError::BadSpec);
        }
        if is_there && norebind {
            return Err(ForwardError::Exists);
        }
        if !is_there && self.is_full() {
            return Err(ForwardError::Full);
        }
        let row = ForwardRow {
            local,
            transport,
            serial: Text::from_slice(self.alloc, serial)?,
            remote: Text::from_slice(self.alloc, remote)?,
        };
        self.rows.insert(local, row)?;
        Ok(())
    }

    /// Removes the row of the local port. Returns whether there was one.
    pub fn remove(&mut self, local: u16) -> bool
        ensures found { result ≡ is_some (at local self.old) }
        ensures after { self.new ≡ without local self.old }
        ensures row { Puts local None self.old self.new }
        ensures absent { OnFalse result (self.new ≡ self.old) }
        ensures table { IsForwardTable self.new }
    {
        self.rows.remove(&local).is_some()
    }

    /// Removes every row.
    pub fn remove_all(&mut self)
        ensures { self.new ≡ [] }
    {
        self.rows.clear();
    }

    /// Removes the rows of that transport, and no others.
    pub fn remove_of(&mut self, transport: u32)
        ensures after { self.new ≡ filter (λ entry. not (entry.1.transport == transport)) self.old }
        ensures table { IsForwardTable self.new }
    {
        self.rows.retain(|_, row| row.transport != transport);
    }

    /// Returns whether no port without a row can get one.
    pub fn is_full(&self) -> bool
        ensures full { IsTrue result ↔ (length self.now ≡ MAX_FORWARDS) }
        ensures table { IsForwardTable self.now }
    {
        self.rows.len() == MAX_FORWARDS
    }

    /// Returns the row of the local port, if there is one.
    pub fn find(&self, local: u16) -> Option<&ForwardRow>
        ensures row { option_copied result ≡ at local self.now }
        ensures table { IsForwardTable self.now }
    {
        self.rows.get(&local)
    }

    /// Returns a line `<serial> tcp:<local> <remote>` for each row, each with its newline, in
    /// rising port. Fails if an allocation fails.
    pub fn list(&self) -> Result<Text, AllocError>
        ensures text { IfOk result (λ text. text ≡ forward_list self.now) }
        ensures fits { IfOk result (λ text. length text < 2 ^ 16) }
        ensures table { IsForwardTable self.now }
    {
        let mut text = Text::new(self.alloc);
        for row in self.rows.values() {
            push_line(&mut text, row)?;
        }
        Ok(text)
    }
}

/// Returns whether a local port and a remote end can be a forward.
fn is_specification(local: u16, remote: &[u8]) -> bool
    ensures { IsTrue result ↔ IsSpecification local remote.now }
{
    local != 0 && !remote.is_empty() && remote.len() <= MAX_REMOTE && is_graphic(remote)
}

/// Appends the line of a row.
fn push_line(text: &mut Text, row: &ForwardRow) -> Result<(), AllocError>
    ensures { OnOk result (text.new ≡ text.old ++ forward_line row.now) }
{
    text.push_slice(row.serial.as_slice())?;
    text.push_slice(b" tcp:")?;
    text.push_slice(Buffer::new().format(row.local).as_bytes())?;
    text.push_slice(b" ")?;
    text.push_slice(row.remote.as_slice())?;
    text.push_slice(b"\n")
}
