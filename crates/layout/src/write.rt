//! Writing a message into a buffer that the caller lends.
ghost use Rattle.std.specs.Prelude.{◌≡◌, ◌+◌, ◌-◌, ◌^◌, ◌≤◌, min, ◌++◌, length, IfOk};
ghost use Rattle.layout.specs.Fields.{field_bytes, in_bytes};
ghost use Rattle.layout.specs.Frames.{message, pasted, sized, sending};

use crate::field::Field;
use market::refusal::{MessageFault, Refusal};

impl Field {
    fn size(self) -> usize
        ensures { result ≡ length (field_bytes self) }
    {
        match self {
            Field::Byte(_) => 1,
            Field::Number(_) | Field::Price(_) => 4,
            Field::Time(_) => 8,
        }
    }
}

/// How many bytes fields take.
fn size(fields: &[Field]) -> usize
    ensures { result ≡ min (2 ^ 64 - 1) (length (in_bytes fields.now)) }
{
    fields
        .iter()
        .fold(0, |total, field| field.size().saturating_add(total))
}

/// Writes `part` into `buf` from the place `at` on.
pub(crate) fn put(buf: &mut [u8], at: usize, part: &[u8])
    requires { at + length part.now ≤ length buf.old }
    ensures { buf.new ≡ pasted buf.old at part.now }
{
    let end = at + part.len();
    buf[at..end].copy_from_slice(part);
}

fn put_field(buf: &mut [u8], at: usize, field: Field)
    requires { at + length (field_bytes field) ≤ length buf.old }
    ensures { buf.new ≡ pasted buf.old at (field_bytes field) }
{
    match field {
        Field::Byte(byte) => put(buf, at, &[byte]),
        Field::Number(number) => put(buf, at, &number.to_be_bytes()),
        Field::Price(price) => put(buf, at, &price.to_be_bytes()),
        Field::Time(time) => put(buf, at, &time.to_be_bytes()),
    }
}

// The place is moved on by hand: a fold over it, whose closure writes into `buf`, is no plainer.
fn put_fields(buf: &mut [u8], start: usize, fields: &[Field])
    requires { start + length (in_bytes fields.now) ≤ length buf.old }
    ensures { buf.new ≡ pasted buf.old start (in_bytes fields.now) }
{
    let mut at = start;
    for field in fields {
        put_field(buf, at, *field);
        at += field.size();
    }
}

/// How many bytes a message of these fields and of the bytes `tail` behind them has, if a message can be so long.
fn message_size(fields: &[Field], tail: &[u8]) -> Result<usize, MessageFault>
    ensures value { result ≡ sized (in_bytes fields.now ++ tail.now) }
    ensures bound { IfOk result (λ n. (n ≡ 4 + length (in_bytes fields.now) + length tail.now) × (n ≤ 65537)) }
{
    let body = size(fields).saturating_add(tail.len());
    if 65_533 < body {
        return Err(MessageFault::Length);
    }
    Ok(4 + body)
}

/// Writes a message of so many bytes at the front of `buf`.
fn put_message(kind: u8, fields: &[Field], tail: &[u8], size: usize, buf: &mut [u8])
    requires whole { size ≡ 4 + length (in_bytes fields.now) + length tail.now }
    requires long { size ≤ 65537 }
    requires room { size ≤ length buf.old }
    ensures { buf.new ≡ pasted buf.old 0 (message kind (in_bytes fields.now ++ tail.now)) }
{
    let [high, low] = ((size - 2) as u16).to_be_bytes();
    put(buf, 0, &[high, low, 1, kind]);
    put_fields(buf, 4, fields);
    put(buf, size - tail.len(), tail);
}

/// Writes the message of this kind, of these fields and of the bytes `tail` behind them at the front of `buf`, and says how many
/// bytes it has; or leaves `buf` as it was, if a message cannot be so long or `buf` is too short for it.
pub fn write_message(
    kind: u8,
    fields: &[Field],
    tail: &[u8],
    buf: &mut [u8],
) -> Result<usize, Refusal>
    ensures value { (result, buf.new) ≡ sending kind (in_bytes fields.now ++ tail.now) buf.old }
    ensures bound { IfOk result (λ n. n ≤ length buf.old) }
{
    let size = message_size(fields, tail)?;
    if buf.len() < size {
        return Err(Refusal::Buffer);
    }
    put_message(kind, fields, tail, size, buf);
    Ok(size)
}
