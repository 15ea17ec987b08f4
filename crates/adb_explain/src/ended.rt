//! The streams that an entry ended.

ghost use Rattle.std.specs.Prelude.{◌≡◌, ◌++◌, OnOk, flat_map};
ghost use Rattle.adb_explain.specs.Lines.{ended_field, ended_object, next_ended};

use adb_entry_lines::{push_named, push_numbered};
use adb_hub::Ended;
use adb_outside::Text;
use std::alloc::AllocError;

/// Appends the field of the streams that ended, if any.
pub(crate) fn push_ended(text: &mut Text, ends: &[Ended]) -> Result<(), AllocError>
    ensures { OnOk result (text.new ≡ text.old ++ ended_field ends.now) }
{
    let [first, more @ ..] = ends else {
        return Ok(());
    };
    text.push_slice(b",\"ended\":[")?;
    push_one(text, first)?;
    push_more(text, more)?;
    text.push_slice(b"]")
}

/// Appends streams after the first one.
fn push_more(text: &mut Text, ends: &[Ended]) -> Result<(), AllocError>
    ensures { OnOk result (text.new ≡ text.old ++ flat_map next_ended ends.now) }
{
    for ended in ends {
        push_next(text, ended)?;
    }
    Ok(())
}

#[tactic(auto, unfolding(crate::specs::Lines::next_ended))]
fn push_next(text: &mut Text, ended: &Ended) -> Result<(), AllocError>
    ensures { OnOk result (text.new ≡ text.old ++ next_ended ended.now) }
{
    text.push_slice(b",")?;
    push_one(text, ended)
}

/// Appends a stream that ended, with its client, its link and the cause.
#[tactic(auto, unfolding(crate::specs::Lines::ended_object))]
fn push_one(text: &mut Text, ended: &Ended) -> Result<(), AllocError>
    ensures { OnOk result (text.new ≡ text.old ++ ended_object ended.now) }
{
    push_numbered(text, b"{\"stream\":", u64::from(ended.stream))?;
    push_numbered(text, b",\"client\":", u64::from(ended.client))?;
    push_numbered(text, b",\"link\":", u64::from(ended.link))?;
    push_named(text, b",\"cause\":\"", ended.ending.text())?;
    text.push_slice(b"}")
}
