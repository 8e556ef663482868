//! What the tape tells everybody: one record a draw, with the time that the book has reached.
ghost use Rattle.std.specs.Prelude.{◌≡◌, Some};
ghost use Rattle.market.specs.Codes.{cause_byte, cause_in, cause_word};

use crate::refusal::MessageFault;
use std::fmt;

/// Why an order was removed.
#[derive(Clone, Copy)]
pub enum Cause {
    /// It was FaKI.
    FaKI,
    /// It was FaK, filled in part, and no session ran.
    FaK,
    /// Its end time came.
    End,
}

/// As a message carries it.
impl From<Cause> for u8 {
    ghost from_gives = { λ cause byte. byte ≡ cause_byte cause };

    fn from(cause: Cause) -> u8 {
        match cause {
            Cause::FaKI => 1,
            Cause::FaK => 2,
            Cause::End => 3,
        }
    }
}

/// A removal for a cause that there is none is of no kind that there is.
impl TryFrom<u8> for Cause {
    type Error = MessageFault;

    ghost try_from_gives = { λ byte cause. cause ≡ cause_in byte };

    fn try_from(byte: u8) -> Result<Cause, MessageFault> {
        match byte {
            1 => Ok(Cause::FaKI),
            2 => Ok(Cause::FaK),
            3 => Ok(Cause::End),
            _ => Err(MessageFault::Kind),
        }
    }
}

impl fmt::Display for Cause {
    ghost output = { λ cause. Some (cause_word cause) };

    fn fmt<W: fmt::Write>(&self, f: &mut fmt::Formatter<W>) -> fmt::Result {
        f.write_str(match self {
            Cause::FaKI => "FaKI",
            Cause::FaK => "FaK",
            Cause::End => "end",
        })
    }
}

/// A bid and an offer traded with each other.
#[derive(Clone, Copy)]
pub struct Fill {
    pub price: i32,
    pub size: u32,
    /// The bid's number, and its displayed size afterwards, any restock done; 0 where it left.
    pub bid: u32,
    pub bidleft: u32,
    /// The offer's number, and its displayed size afterwards.
    pub offer: u32,
    pub offerleft: u32,
}

#[derive(Clone, Copy)]
pub enum Record {
    /// Nothing is left to do by the time that was wished.
    Quiet {
        time: u64,
    },
    Fill {
        time: u64,
        fill: Fill,
    },
    /// A session began, at the price of the passive order.
    Session {
        time: u64,
        price: i32,
        passive: u32,
    },
    /// The session's Timed phase ended, and its Rolling phase began.
    Rolling {
        time: u64,
    },
    /// The session ended, and the FBS Period began.
    Fbs {
        time: u64,
    },
    /// The FBS Period ended.
    Open {
        time: u64,
    },
    Removal {
        time: u64,
        number: u32,
        displayed: u32,
        cause: Cause,
    },
}
