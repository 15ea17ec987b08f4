//! The lists of devices, as replies print them.

ghost use Rattle.std.specs.Prelude.{◌≡◌, ◌++◌, ◌∷◌, [], OnOk, IfOk, take, decimal, codes};
ghost use Rattle.std.specs.Map.{values_of};
ghost use Rattle.adb_registry.specs.Lists.{short_line, long_line, padded, field, name_byte, model_byte, make_of, newline, short_list, long_list};

use crate::row::Row;
use adb_outside::{Identity, Text, state_text};
use itoa::Buffer;
use std::alloc::{AllocError, Global};
use std::collections::BTreeMap;

/// The width to which a serial is padded in a long line.
const SERIAL_WIDTH: usize = 22;

/// The maximum number of bytes of a value in a long line.
const MAX_VALUE: usize = 64;

/// Returns a line for each row: its serial and its state.
pub(crate) fn short(alloc: Global, rows: &BTreeMap<u32, Row>) -> Result<Text, AllocError>
    ensures { IfOk result (λ list. list ≡ short_list (values_of rows.now.entries)) }
{
    let mut list = Vec::new(alloc);
    for row in rows.values() {
        push_short_line(&mut list, row)?;
    }
    Ok(Text::from_vec(list))
}

/// Returns a line for each row: its serial, its state, the make that it reported, and its id.
pub(crate) fn long(alloc: Global, rows: &BTreeMap<u32, Row>) -> Result<Text, AllocError>
    ensures { IfOk result (λ list. list ≡ long_list (values_of rows.now.entries)) }
{
    let mut list = Vec::new(alloc);
    for row in rows.values() {
        push_long_line(&mut list, row)?;
    }
    Ok(Text::from_vec(list))
}

fn push_short_line(list: &mut Vec<u8>, row: &Row) -> Result<(), AllocError>
    ensures { OnOk result (list.new.items ≡ list.old.items ++ short_line row.now) }
{
    list.extend_from_slice(row.serial.as_slice())?;
    list.push(b'\t')?;
    list.extend_from_slice(state_text(row.state))?;
    list.push(b'\n')?;
    Ok(())
}

fn push_long_line(list: &mut Vec<u8>, row: &Row) -> Result<(), AllocError>
    ensures { OnOk result (list.new.items ≡ list.old.items ++ long_line row.now) }
{
    push_padded(list, row.serial.as_slice())?;
    list.push(b' ')?;
    list.extend_from_slice(state_text(row.state))?;
    push_make(list, &row.identity)?;
    push_id(list, row.id)
}

/// Appends the text, padded with spaces to the width of a serial.
fn push_padded(list: &mut Vec<u8>, text: &[u8]) -> Result<(), AllocError>
    ensures { OnOk result (list.new.items ≡ list.old.items ++ padded text.now) }
{
    list.extend_from_slice(text)?;
    let padding = SERIAL_WIDTH.saturating_sub(text.len());
    list.resize(list.len() + padding, b' ')
}

/// Appends the make that a device reported.
fn push_make(list: &mut Vec<u8>, identity: &Option<Identity>) -> Result<(), AllocError>
    ensures { OnOk result (list.new.items ≡ list.old.items ++ make_of identity.now) }
{
    let Some(identity) = identity else {
        return Ok(());
    };
    push_name(list, b" product:", identity.product.as_slice())?;
    push_model(list, identity.model.as_slice())?;
    push_name(list, b" device:", identity.device.as_slice())
}

/// Appends a label and the name of a product or device, if the name is not empty.
fn push_name(list: &mut Vec<u8>, label: &[u8], name: &[u8]) -> Result<(), AllocError>
    ensures { OnOk result (list.new.items ≡ list.old.items ++ field label.now name_byte name.now) }
{
    if name.is_empty() {
        return Ok(());
    }
    list.extend_from_slice(label)?;
    for byte in cut(name) {
        list.push(name_byte(*byte))?;
    }
    Ok(())
}

/// Appends a label and the name of a model, if the name is not empty.
fn push_model(list: &mut Vec<u8>, model: &[u8]) -> Result<(), AllocError>
    ensures { OnOk result (list.new.items
        ≡ list.old.items ++ field (codes " model:") model_byte model.now) }
{
    if model.is_empty() {
        return Ok(());
    }
    list.extend_from_slice(b" model:")?;
    for byte in cut(model) {
        list.push(model_byte(*byte))?;
    }
    Ok(())
}

/// Returns the part of a value that a long line prints.
fn cut(value: &[u8]) -> &[u8]
    ensures { result.now ≡ take MAX_VALUE value.now }
{
    if value.len() > MAX_VALUE {
        &value[..MAX_VALUE]
    } else {
        value
    }
}

/// Returns the byte that is printed for a byte of a product's or device's name.
fn name_byte(byte: u8) -> u8
    ensures { result ≡ name_byte byte }
{
    if byte.is_ascii_graphic() { byte } else { b'_' }
}

/// Returns the byte that is printed for a byte of a model's name.
fn model_byte(byte: u8) -> u8
    ensures { result ≡ model_byte byte }
{
    if byte.is_ascii_alphanumeric() {
        byte
    } else {
        b'_'
    }
}

/// Appends the transport id, which ends a line.
fn push_id(list: &mut Vec<u8>, id: u32) -> Result<(), AllocError>
    ensures { OnOk result (list.new.items
        ≡ list.old.items ++ codes " transport_id:" ++ decimal id ++ newline ∷ []) }
{
    list.extend_from_slice(b" transport_id:")?;
    list.extend_from_slice(Buffer::new().format(id).as_bytes())?;
    list.push(b'\n')?;
    Ok(())
}
