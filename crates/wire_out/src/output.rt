//! Output messages.
ghost use Rattle.std.specs.Prelude.{◌≡◌};
ghost use Rattle.wire_out.specs.Outputs.{output_of};

use market::answer::{Accepted, Answer};
use market::record::Record;

/// What a call is answered by: a draw by the tape's next record, and any other call by a reply.
#[derive(Clone, Copy)]
pub enum Output {
    Record(Record),
    /// The number of the refusal, or 0 where the call was accepted; and the number of the order that was entered, or 0.
    // Numbers, and no `Refusal`: a reader takes any byte here.
    Reply { refusal: u8, order: u32 },
}

/// The message that tells an answer: a record, or a reply with the refusal's number, with the new order's number, or with neither.
impl From<Answer> for Output {
    ghost from_gives = { λ answer output. output ≡ output_of answer };

    fn from(answer: Answer) -> Output {
        match answer {
            Err(refusal) => Output::Reply {
                refusal: refusal.number(),
                order: 0,
            },
            Ok(Accepted::Entered(order)) => Output::Reply { refusal: 0, order },
            Ok(Accepted::Done) => Output::Reply {
                refusal: 0,
                order: 0,
            },
            Ok(Accepted::Drawn(drawn)) => Output::Record(drawn),
        }
    }
}
