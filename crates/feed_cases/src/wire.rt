//! Asks of rt_wire.

use cases::{number, say, say_hex, say_some, size, word};
use rt_wire::{
    Fields, RawField, RawValue, WireFault, group_depth, put_field, put_varint, read_varint,
};
use std::alloc::{AllocError, Global};

fn say_fault(alloc: Global, fault: WireFault, answer: &mut Vec<u8>) -> Result<(), AllocError> {
    let line = format!(in alloc; "{:?} at {}", fault.reason, fault.at)?;
    say(answer, line.as_str())
}

fn kind_of(value: RawValue<'_>) -> &'static str {
    match value {
        RawValue::Varint(_) => "varint",
        RawValue::Fixed64(_) => "fixed64",
        RawValue::Len(_) => "len",
        RawValue::Group(_) => "group",
        RawValue::Fixed32(_) => "fixed32",
    }
}

// A number, or the bytes of a payload or group.
fn say_value(alloc: Global, value: RawValue<'_>, answer: &mut Vec<u8>) -> Result<(), AllocError> {
    match value {
        RawValue::Varint(n) | RawValue::Fixed64(n) => say_some(alloc, answer, Some(n)),
        RawValue::Fixed32(n) => say_some(alloc, answer, Some(n)),
        RawValue::Len(bytes) | RawValue::Group(bytes) => say_hex(alloc, answer, bytes),
    }
}

// A field's number, where its tag starts, where its value or payload starts, where it ends, and its kind; then its value.
fn say_field(alloc: Global, field: RawField<'_>, answer: &mut Vec<u8>) -> Result<(), AllocError> {
    let kind = kind_of(field.value);
    let line = format!(in alloc;
        "{} {} {} {} {kind}",
        field.number, field.start, field.body, field.end
    )?;
    say(answer, line.as_str())?;
    say_value(alloc, field.value, answer)
}

// Each field, the fault, and the end, behind which nothing comes.
fn say_fields(alloc: Global, bytes: &[u8], answer: &mut Vec<u8>) -> Result<(), AllocError> {
    let mut fields = Fields::new(bytes);
    while let Some(field) = fields.next() {
        match field {
            Ok(field) => say_field(alloc, field, answer)?,
            Err(fault) => say_fault(alloc, fault, answer)?,
        }
    }
    let is_over = fields.next().is_none();
    say(
        answer,
        if is_over {
            "end"
        } else {
            "more behind the end"
        },
    )
}

fn say_varint(
    alloc: Global,
    bytes: &[u8],
    at: usize,
    answer: &mut Vec<u8>,
) -> Result<(), AllocError> {
    match read_varint(bytes, bytes.len().min(at)) {
        Ok((number, end)) => say(answer, format!(in alloc; "{number} up to {end}")?.as_str()),
        Err(fault) => say_fault(alloc, fault, answer),
    }
}

// A field of each kind, two of them at the greatest and the least number.
fn put_each_kind(answer: &mut Vec<u8>) -> Result<(), AllocError> {
    put_field(answer, 1, RawValue::Varint(150))?;
    put_field(answer, 16, RawValue::Fixed64(1))?;
    put_field(answer, 536_870_911, RawValue::Len(&[0x68, 0x69]))?;
    put_field(answer, 1, RawValue::Group(&[]))?;
    put_field(answer, 2, RawValue::Fixed32(0x0403_0201))
}

/// Answers `varint AT`, `put-varint NUMBER`, `fields`, `depth` and `put-each-kind`.
pub fn answer(
    alloc: Global,
    words: &[String],
    given: &[u8],
    answer: &mut Vec<u8>,
) -> Result<bool, AllocError> {
    match word(words, 0) {
        "varint" => say_varint(alloc, given, size(words, 1), answer)?,
        "put-varint" => put_varint(answer, number(words, 1))?,
        "fields" => say_fields(alloc, given, answer)?,
        "depth" => say_some(alloc, answer, group_depth(given))?,
        "put-each-kind" => put_each_kind(answer)?,
        _ => return Ok(false),
    }
    Ok(true)
}
