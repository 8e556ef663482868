//! Writing calls.
ghost use Rattle.std.specs.Prelude.{◌≡◌, ◌≤◌, length, IfOk};
ghost use Rattle.wire_in.specs.Messages.{said, entry};
ghost use Rattle.wire_in.specs.Writing.{end_number, writing_call};

use crate::message::CallMessage;
use layout::field::Field;
use layout::write::write_message;
use market::call::OrderEntry;
use market::refusal::{BookFault, MessageFault, Refusal};

/// How an end time is written: none as 0, which is no end time, since it comes before any time of a book.
// No `TryFrom`: both types are the library's.
fn end_number(end: Option<u64>) -> Result<u64, BookFault>
    ensures { result ≡ end_number end }
{
    match end {
        None => Ok(0),
        Some(0) => Err(BookFault::End),
        Some(time) => Ok(time),
    }
}

fn write_entry(order: &OrderEntry, reference: &[u8], buf: &mut [u8]) -> Result<usize, Refusal>
    ensures value { (result, buf.new) ≡ writing_call (entry order.now reference.now) buf.old }
    ensures bound { IfOk result (λ n. n ≤ length buf.old) }
{
    if 16 < reference.len() {
        return Err(Refusal::Message(MessageFault::Length));
    }
    let end = end_number(order.end)?;
    let fields = [
        Field::Byte(order.trader),
        Field::Byte(order.side.into()),
        Field::Byte(order.kind.into()),
        Field::Price(order.price),
        Field::Number(order.displayed),
        Field::Number(order.reserve),
        Field::Time(end),
    ];
    write_message(1, &fields, reference, buf)
}

/// Writes the message at the front of `buf`, and says how many bytes it has; or leaves `buf` as it was. A message has no room for a
/// reference of more than 16 bytes, and writes no end time as 0: such a reference is refused as a length that does not fit, and
/// an end time of 0, which comes before any time of a book, as an end time that is past.
pub fn write_call(message: &CallMessage, buf: &mut [u8]) -> Result<usize, Refusal>
    ensures value { (result, buf.new) ≡ writing_call (said message.now) buf.old }
    ensures bound { IfOk result (λ n. n ≤ length buf.old) }
{
    match *message {
        CallMessage::Entry { order, reference } => write_entry(&order, reference, buf),
        CallMessage::Change(change) => {
            let fields = [
                Field::Byte(change.trader),
                Field::Number(change.number),
                Field::Price(change.price),
                Field::Number(change.displayed),
                Field::Number(change.reserve),
            ];
            write_message(2, &fields, &[], buf)
        }
        CallMessage::Cancel(cancel) => {
            write_message(
                3,
                &[Field::Byte(cancel.trader), Field::Number(cancel.number)],
                &[],
                buf,
            )
        }
        CallMessage::Tick { time } => write_message(4, &[Field::Time(time)], &[], buf),
        CallMessage::Draw => write_message(5, &[], &[], buf),
    }
}
