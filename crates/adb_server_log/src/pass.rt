//! Passes. A pass is the number of a client or a link, with shares of the counts and a mark. Each
//! worker holds one.

ghost use Rattle.std.specs.Prelude.{◌≡◌, true};

use crate::marks::Marks;
use std::marker::Model;
use std::sync::ledger::{Ledger, Share};

/// A mark. It can be set only while the alarm of its desk is set. Contracts see whether it is set.
#[derive(Drop)]
pub struct Mark<K: Marks> {
    pub(crate) share: Share<K>,
    pub(crate) set: bool,
}

impl<K: Marks> Model for Mark<K> {
    ghost use Rattle.std.specs.Prelude.{◌≡◌, if◌then◌else◌, Bool};

    ghost Value = { Bool };

    ghost view = { λ m. m.set };

    ghost invariant = { λ m. (m.share.parts ≡ 1)
        × (m.share.amount ≡ (if m.set then 1 else 0)) };
}

/// The number of a client or a link, with shares of the counts of entries and of moved bytes, and a
/// mark. If a pass is dropped without being retired, its shares are lost, and the counts are never
/// returned.
#[derive(Drop)]
pub struct Pass<E: Ledger, M: Ledger, K: Marks> {
    pub(crate) number: u32,
    pub(crate) entries: Share<E>,
    pub(crate) moved: Share<M>,
    pub(crate) mark: Mark<K>,
    pub(crate) starved: bool,
}

impl<E: Ledger, M: Ledger, K: Marks> Model for Pass<E, M, K> {
    ghost use Rattle.std.specs.Prelude.{◌≡◌};
    ghost use Rattle.adb_server_log.specs.Pass.{PassView};

    ghost Value = { PassView };

    ghost view = { λ p. record {
      number = p.number;
      entries = p.entries.amount;
      moved = p.moved.amount;
      marked = p.mark;
      starved = p.starved;
    } };

    ghost invariant = { λ p. (p.entries.parts ≡ 1) × (p.moved.parts ≡ 1) };
}

impl<E: Ledger, M: Ledger, K: Marks> Pass<E, M, K> {
    /// Returns the number of its client or link.
    pub fn number(&self) -> u32
        ensures { result ≡ self.now.number }
    {
        self.number
    }
}

/// The pass of a client's reader.
#[derive(Drop)]
pub struct ClientIn<E: Ledger, M: Ledger, K: Marks> {
    pub pass: Pass<E, M, K>,
}

/// The pass of a client's writer.
#[derive(Drop)]
pub struct ClientOut<E: Ledger, M: Ledger, K: Marks> {
    pub pass: Pass<E, M, K>,
}

/// The pass of a device's reader.
#[derive(Drop)]
pub struct LinkIn<E: Ledger, M: Ledger, K: Marks> {
    pub pass: Pass<E, M, K>,
}

/// The pass of a device's writer.
#[derive(Drop)]
pub struct LinkOut<E: Ledger, M: Ledger, K: Marks> {
    pub pass: Pass<E, M, K>,
}

impl<E: Ledger, M: Ledger, K: Marks> ClientIn<E, M, K> {
    /// Returns the number of its client.
    pub fn number(&self) -> u32
        ensures { result ≡ self.now.pass.number }
    {
        self.pass.number()
    }
}

impl<E: Ledger, M: Ledger, K: Marks> ClientOut<E, M, K> {
    /// Returns the number of its client.
    pub fn number(&self) -> u32
        ensures { result ≡ self.now.pass.number }
    {
        self.pass.number()
    }
}

impl<E: Ledger, M: Ledger, K: Marks> LinkIn<E, M, K> {
    /// Returns the number of its link.
    pub fn number(&self) -> u32
        ensures { result ≡ self.now.pass.number }
    {
        self.pass.number()
    }
}

impl<E: Ledger, M: Ledger, K: Marks> LinkOut<E, M, K> {
    /// Returns the number of its link.
    pub fn number(&self) -> u32
        ensures { result ≡ self.now.pass.number }
    {
        self.pass.number()
    }
}
