//! Where a message ends, and what it says.
ghost use Rattle.std.specs.Prelude.{◌≡◌, ◌≤◌, length, MatchResult};
ghost use Rattle.layout.specs.Frames.{Answers, beside, framed};

use crate::number::Number;
use market::refusal::{MessageFault, Refusal};

/// How many bytes the first message of `input` has, head and all, if they are all there and its version is the one that there is.
pub fn frame(input: &[u8]) -> Result<usize, MessageFault>
    ensures { result ≡ framed input.now }
{
    let present = input.len();
    let rest = u16::read_at(input, 0) as usize;
    if present < 4 || rest < 2 || present < 2 + rest {
        return Err(MessageFault::Short { present });
    }
    match input[2] {
        1 => Ok(2 + rest),
        _ => Err(MessageFault::Version),
    }
}

/// The first message of `input`, and how many bytes it has.
fn first<'a, M: TryFrom<&'a [u8], Error = MessageFault>>(
    input: &'a [u8],
) -> Result<(M, usize), Refusal>
    ensures { Answers M.try_from_gives input.entry (beside result) }
{
    let size = frame(input)?;
    let message = M::try_from(&input[..size])?;
    Ok((message, size))
}

/// The first message of `input` or its refusal, and beside it how many bytes were taken. What follows the message is not looked at.
pub fn read_framed<'a, M: TryFrom<&'a [u8], Error = MessageFault>>(
    input: &'a [u8],
) -> (Result<M, Refusal>, usize)
    ensures value { Answers M.try_from_gives input.entry (result.0, result.1) }
    ensures within { result.1 ≤ length input.now }
    ensures cases { MatchResult result.0 (λ _. 4 ≤ result.1) (λ _. result.1 ≡ 0) }
{
    match first(input) {
        Ok((message, taken)) => (Ok(message), taken),
        Err(refusal) => (Err(refusal), 0),
    }
}
