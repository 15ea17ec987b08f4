//! The end of a line: the counts of clients, links and streams.

ghost use Rattle.std.specs.Prelude.{◌≡◌, ◌++◌, OnOk};
ghost use Rattle.adb_explain.specs.Lines.{clients_name, count_fields, over, streams_name};

use adb_entry_lines::push_numbered;
use adb_outside::Text;
use std::alloc::{AllocError, Global};
use std::marker::Model;

/// The end of the last line. It is kept because most lines end as the line before them.
#[derive(Drop)]
pub(crate) struct Tail {
    clients: u32,
    links: u32,
    streams: u32,
    /// Whether the text is the end of a line with these counts.
    is_known: bool,
    text: Text,
}

impl Model for Tail {
    ghost use Rattle.std.specs.Prelude.{◌≡◌, ◌++◌, true};
    ghost use Rattle.adb_explain.specs.Lines.{count_fields, over};

    ghost Value = { Unit {0} };

    ghost view = { λ t. tt };

    ghost invariant = { λ t. t.is_known ≡ true
        → t.text ≡ count_fields t.clients t.links t.streams ++ over };
}

impl Tail {
    /// Returns an empty tail, which is the end of no line. Allocates nothing.
    pub(crate) fn new(alloc: Global) -> Tail {
        Tail {
            clients: 0,
            links: 0,
            streams: 0,
            is_known: false,
            text: Text::new(alloc),
        }
    }

    /// Appends the counts of clients, links and streams, and ends the line.
    pub(crate) fn push(
        &mut self,
        text: &mut Text,
        clients: u32,
        links: u32,
        streams: u32,
    ) -> Result<(), AllocError>
        ensures { OnOk result (text.new
            ≡ text.old ++ (count_fields clients links streams ++ over)) }
    {
        if self.is_known
            && self.clients == clients
            && self.links == links
            && self.streams == streams
        {
            return text.push_slice(self.text.as_slice());
        }
        self.is_known = false;
        self.text.truncate(0);
        push_counts(&mut self.text, clients, links, streams)?;
        self.clients = clients;
        self.links = links;
        self.streams = streams;
        self.is_known = true;
        text.push_slice(self.text.as_slice())
    }
}

/// Appends the counts, and ends the line.
#[tactic(auto, unfolding(crate::specs::Lines::count_fields))]
fn push_counts(text: &mut Text, clients: u32, links: u32, streams: u32) -> Result<(), AllocError>
    ensures { OnOk result (text.new ≡ text.old ++ (count_fields clients links streams ++ over)) }
{
    push_numbered(text, clients_name(), u64::from(clients))?;
    push_numbered(text, b",\"links\":", u64::from(links))?;
    push_numbered(text, streams_name(), u64::from(streams))?;
    text.push_slice(b"}\n")
}

#[tactic(auto, unfolding(crate::specs::Lines::clients_name))]
fn clients_name() -> &'static [u8]
    ensures { result.now ≡ clients_name }
{
    b",\"clients\":"
}

#[tactic(auto, unfolding(crate::specs::Lines::streams_name))]
fn streams_name() -> &'static [u8]
    ensures { result.now ≡ streams_name }
{
    b",\"streams\":"
}
