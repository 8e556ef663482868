//! Reading calls.
ghost use Rattle.std.specs.Prelude.{◌≡◌, ◌≤◌, length, MatchResult};
ghost use Rattle.layout.specs.Frames.{reading};
ghost use Rattle.wire_in.specs.Messages.{meant, Placed};
ghost use Rattle.wire_in.specs.Reading.{end_of, entry_in, change_in, cancel_in, call_in};

use crate::message::CallMessage;
use layout::frame::read_framed;
use layout::number::Number;
use market::call::{OrderCancel, OrderChange, OrderEntry};
use market::order::{OrderType, Side};
use market::refusal::{MessageFault, Refusal};

/// An end time of 0 is none.
// No `From`: both types are the library's.
fn end_time(end: u64) -> Option<u64>
    ensures { result ≡ end_of end }
{
    match end {
        0 => None,
        _ => Some(end),
    }
}

fn entry<'a>(message: &'a [u8]) -> Result<CallMessage<'a>, MessageFault>
    requires { 27 ≤ length message.now }
    ensures value { meant result ≡ entry_in message.now }
    ensures place { Placed message.entry.ref_ptr result }
{
    let side = Side::try_from(message[5])?;
    let kind = OrderType::try_from(message[6])?;
    let order = OrderEntry {
        trader: message[4],
        side,
        kind,
        price: i32::read_at(message, 7),
        displayed: u32::read_at(message, 11),
        reserve: u32::read_at(message, 15),
        end: end_time(u64::read_at(message, 19)),
    };
    Ok(CallMessage::Entry {
        order,
        reference: &message[27..],
    })
}

fn change(message: &[u8]) -> OrderChange
    requires { 21 ≤ length message.now }
    ensures { result ≡ change_in message.now }
{
    OrderChange {
        trader: message[4],
        number: u32::read_at(message, 5),
        price: i32::read_at(message, 9),
        displayed: u32::read_at(message, 13),
        reserve: u32::read_at(message, 17),
    }
}

fn cancel(message: &[u8]) -> OrderCancel
    requires { 9 ≤ length message.now }
    ensures { result ≡ cancel_in message.now }
{
    OrderCancel {
        trader: message[4],
        number: u32::read_at(message, 5),
    }
}

/// The call that a whole message makes. Its kind is at byte 3; a message with a reference has 27 to 43 bytes.
// The layout lists kinds and lengths by their numbers, and so does the `match`.
impl<'a> TryFrom<&'a [u8]> for CallMessage<'a> {
    type Error = MessageFault;

    ghost try_from_gives = { λ message call. (meant call ≡ call_in message.now) × Placed message.ref_ptr call };

    fn try_from(message: &'a [u8]) -> Result<CallMessage<'a>, MessageFault> {
        match (message.get(3), message.len()) {
            (Some(1), 27..=43) => entry(message),
            (Some(2), 21) => Ok(CallMessage::Change(change(message))),
            (Some(3), 9) => Ok(CallMessage::Cancel(cancel(message))),
            (Some(4), 12) => Ok(CallMessage::Tick {
                time: u64::read_at(message, 4),
            }),
            (Some(5), 4) => Ok(CallMessage::Draw),
            (Some(1..=5), _) => Err(MessageFault::Length),
            _ => Err(MessageFault::Kind),
        }
    }
}

/// The first call of `input` or its refusal, and beside it how many bytes were taken. What follows the call is not looked at.
pub fn read<'a>(input: &'a [u8]) -> (Result<CallMessage<'a>, Refusal>, usize)
    ensures value { (meant result.0, result.1) ≡ reading call_in input.now }
    ensures place { Placed input.entry.ref_ptr result.0 }
    ensures within { result.1 ≤ length input.now }
    ensures cases { MatchResult result.0 (λ _. 4 ≤ result.1) (λ _. result.1 ≡ 0) }
{
    read_framed(input)
}
