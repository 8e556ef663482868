//! Reading messages of every kind.
ghost use Rattle.std.specs.Prelude.{◌≡◌, ◌≤◌, length, MatchResult};
ghost use Rattle.wire.specs.Told.{meant, meaning, telling};

use crate::message::Message;
use layout::frame::read_framed;
use market::refusal::{MessageFault, Refusal};
use wire_in::message::CallMessage;
use wire_out::output::Output;

/// A whole message is a call, if its kind is a call's, 1 to 5, and else a record or a reply.
// Kinds are decided by their numbers, as in the layout.
impl<'a> TryFrom<&'a [u8]> for Message<'a> {
    type Error = MessageFault;

    ghost try_from_gives = { λ bytes message. meant message ≡ meaning bytes.now };

    fn try_from(bytes: &'a [u8]) -> Result<Message<'a>, MessageFault> {
        match bytes.get(3) {
            Some(1..=5) => Ok(Message::Call(CallMessage::try_from(bytes)?)),
            _ => Ok(Message::Output(Output::try_from(bytes)?)),
        }
    }
}

/// The first message of `input` or its refusal, and beside it how many bytes were taken.
#[tactic(auto, using(crate::proofs::Answer::reads))]
pub fn read_message<'a>(input: &'a [u8]) -> (Result<Message<'a>, Refusal>, usize)
    ensures value { (meant result.0, result.1) ≡ telling input.now }
    ensures within { result.1 ≤ length input.now }
    ensures cases { MatchResult result.0 (λ _. 4 ≤ result.1) (λ _. result.1 ≡ 0) }
{
    read_framed(input)
}
