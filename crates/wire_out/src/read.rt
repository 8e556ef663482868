//! Reading records and replies back.
ghost use Rattle.std.specs.Prelude.{◌≡◌, ◌≤◌, length, MatchResult};
ghost use Rattle.layout.specs.Frames.{reading};
ghost use Rattle.wire_out.specs.Reading.{fill_in, removal_in, output_in};

use crate::output::Output;
use layout::frame::read_framed;
use layout::number::Number;
use market::record::{Cause, Fill, Record};
use market::refusal::{MessageFault, Refusal};

fn fill(message: &[u8]) -> Fill
    ensures { result ≡ fill_in message.now }
{
    Fill {
        price: i32::read_at(message, 12),
        size: u32::read_at(message, 16),
        bid: u32::read_at(message, 20),
        bidleft: u32::read_at(message, 24),
        offer: u32::read_at(message, 28),
        offerleft: u32::read_at(message, 32),
    }
}

fn removal(message: &[u8]) -> Result<Output, MessageFault>
    requires { 21 ≤ length message.now }
    ensures { result ≡ removal_in message.now }
{
    let cause = Cause::try_from(message[20])?;
    let number = u32::read_at(message, 12);
    let displayed = u32::read_at(message, 16);
    Ok(Output::Record(Record::Removal {
        time: u64::read_at(message, 4),
        number,
        displayed,
        cause,
    }))
}

/// The record or reply that a whole message brings. Its kind is at byte 3, and a record's time at byte 4.
// The layout lists kinds and lengths by their numbers, and so does the `match`.
impl TryFrom<&[u8]> for Output {
    type Error = MessageFault;

    ghost try_from_gives = { λ message output. output ≡ output_in message.now };

    fn try_from(message: &[u8]) -> Result<Output, MessageFault> {
        let time = u64::read_at(message, 4);
        match (message.get(3), message.len()) {
            (Some(16), 12) => Ok(Output::Record(Record::Quiet { time })),
            (Some(17), 36) => Ok(Output::Record(Record::Fill {
                time,
                fill: fill(message),
            })),
            (Some(18), 20) => Ok(Output::Record(Record::Session {
                time,
                price: i32::read_at(message, 12),
                passive: u32::read_at(message, 16),
            })),
            (Some(19), 12) => Ok(Output::Record(Record::Rolling { time })),
            (Some(20), 12) => Ok(Output::Record(Record::Fbs { time })),
            (Some(21), 12) => Ok(Output::Record(Record::Open { time })),
            (Some(22), 21) => removal(message),
            (Some(32), 9) => Ok(Output::Reply {
                refusal: message[4],
                order: u32::read_at(message, 5),
            }),
            (Some(16..=22 | 32), _) => Err(MessageFault::Length),
            _ => Err(MessageFault::Kind),
        }
    }
}

/// The first record or reply of `input` or its refusal, and beside it how many bytes were taken. What follows it is not looked at.
pub fn read_output(input: &[u8]) -> (Result<Output, Refusal>, usize)
    ensures value { (result.0, result.1) ≡ reading output_in input.now }
    ensures within { result.1 ≤ length input.now }
    ensures cases { MatchResult result.0 (λ _. 4 ≤ result.1) (λ _. result.1 ≡ 0) }
{
    read_framed(input)
}
