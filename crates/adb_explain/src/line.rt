//! The end of an entry's line: the effects of the entry, or the rule that it breaks.

ghost use Rattle.std.specs.Prelude.{◌≡◌, ◌++◌, OnOk};
ghost use Rattle.adb_explain.specs.Lines.{end_by, kept_fields, made_fields, over, rule_field};
ghost use Rattle.adb_explain.specs.Lines.{rule_name};

use crate::ended::push_ended;
use crate::tail::Tail;
use adb_check::Rule;
use adb_entry_lines::push_named;
use adb_hub::{Ended, Hub};
use adb_outside::Text;
use std::alloc::AllocError;

/// Appends the effects of an entry, or the rule that it breaks, and ends the line.
pub(crate) fn push_end(
    text: &mut Text,
    broken: Option<Rule>,
    ends: &[Ended],
    tail: &mut Tail,
    hub: &Hub,
) -> Result<(), AllocError>
    ensures { OnOk result (text.new ≡ text.old ++ end_by broken ends.now hub.now) }
{
    match broken {
        None => push_made(text, ends, tail, hub),
        Some(rule) => push_rule(text, rule),
    }
}

/// Appends the streams that an entry ended and the counts of a hub's clients, links and streams,
/// and ends the line.
fn push_made(text: &mut Text, ends: &[Ended], tail: &mut Tail, hub: &Hub) -> Result<(), AllocError>
    ensures { OnOk result (text.new ≡ text.old ++ made_fields ends.now hub.now) }
{
    push_ended(text, ends)?;
    push_kept(text, tail, hub)
}

/// Appends the counts of a hub's clients, links and streams, and ends the line.
fn push_kept(text: &mut Text, tail: &mut Tail, hub: &Hub) -> Result<(), AllocError>
    ensures { OnOk result (text.new ≡ text.old ++ (kept_fields hub.now ++ over)) }
{
    let summary = hub.summary();
    tail.push(text, summary.clients, summary.links, summary.streams)
}

/// Appends the rule that an entry breaks, and ends the line.
#[tactic(auto, unfolding(crate::specs::Lines::rule_field))]
fn push_rule(text: &mut Text, rule: Rule) -> Result<(), AllocError>
    ensures { OnOk result (text.new ≡ text.old ++ rule_field rule) }
{
    push_named(text, rule_name(), rule.text())?;
    text.push_slice(b"}\n")
}

#[tactic(auto, unfolding(crate::specs::Lines::rule_name))]
fn rule_name() -> &'static [u8]
    ensures { result.now ≡ rule_name }
{
    b",\"illegal\":\""
}
