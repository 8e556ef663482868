//! Orders.
ghost use Rattle.std.specs.Prelude.{◌≡◌, Some};
ghost use Rattle.market.specs.Codes.{side_byte, side_in, side_word, type_byte, type_in, type_word};

use crate::refusal::MessageFault;
use std::fmt;

/// A side of the market: bids buy, offers sell.
#[derive(Clone, Copy, PartialEq, Eq, Default)]
pub enum Side {
    #[default]
    Bid,
    Offer,
}

/// What becomes of the size that an order does not trade.
#[derive(Clone, Copy, Default)]
pub enum OrderType {
    #[default]
    /// Fill and Store: the rest stays until it is filled or cancelled.
    FaS,
    /// Fill and Kill: once filled in part, the rest goes as soon as no session runs.
    FaK,
    /// Fill and Kill Immediate: the rest goes at once.
    FaKI,
}

/// As a message carries it.
impl From<Side> for u8 {
    ghost from_gives = { λ side byte. byte ≡ side_byte side };

    fn from(side: Side) -> u8 {
        match side {
            Side::Bid => 0,
            Side::Offer => 1,
        }
    }
}

impl TryFrom<u8> for Side {
    type Error = MessageFault;

    ghost try_from_gives = { λ byte side. side ≡ side_in byte };

    fn try_from(byte: u8) -> Result<Side, MessageFault> {
        match byte {
            0 => Ok(Side::Bid),
            1 => Ok(Side::Offer),
            _ => Err(MessageFault::Side),
        }
    }
}

impl fmt::Display for Side {
    ghost output = { λ side. Some (side_word side) };

    fn fmt<W: fmt::Write>(&self, f: &mut fmt::Formatter<W>) -> fmt::Result {
        f.write_str(match self {
            Side::Bid => "bid",
            Side::Offer => "offer",
        })
    }
}

/// As a message carries it.
impl From<OrderType> for u8 {
    ghost from_gives = { λ kind byte. byte ≡ type_byte kind };

    fn from(kind: OrderType) -> u8 {
        match kind {
            OrderType::FaS => 0,
            OrderType::FaK => 1,
            OrderType::FaKI => 2,
        }
    }
}

impl TryFrom<u8> for OrderType {
    type Error = MessageFault;

    ghost try_from_gives = { λ byte kind. kind ≡ type_in byte };

    fn try_from(byte: u8) -> Result<OrderType, MessageFault> {
        match byte {
            0 => Ok(OrderType::FaS),
            1 => Ok(OrderType::FaK),
            2 => Ok(OrderType::FaKI),
            _ => Err(MessageFault::OrderType),
        }
    }
}

impl fmt::Display for OrderType {
    ghost output = { λ kind. Some (type_word kind) };

    fn fmt<W: fmt::Write>(&self, f: &mut fmt::Formatter<W>) -> fmt::Result {
        f.write_str(match self {
            OrderType::FaS => "FaS",
            OrderType::FaK => "FaK",
            OrderType::FaKI => "FaKI",
        })
    }
}

/// All that anybody may know of a live order. Its reserve, the hidden size from which the displayed size is topped up, is kept
/// apart, so that nothing which decides by orders can read it.
#[derive(Clone, Copy, Default)]
pub struct Order {
    /// Orders are numbered from 1 as they are accepted.
    pub number: u32,
    pub trader: u8,
    pub side: Side,
    pub kind: OrderType,
    /// In ticks.
    pub price: i32,
    /// What the market sees of its size, and what one fill can take.
    pub displayed: u32,
    /// The displayed size that its trader last wrote: a restock brings back at most this.
    pub shown: u32,
    /// When it is removed, if it is still live.
    pub end: Option<u64>,
    /// A count that only rises: the lower was earlier in its place.
    pub stamp: u64,
    /// It has had a fill.
    pub filled: bool,
    /// The number of its first fill in the session.
    pub first: Option<u64>,
    /// It stood on the passive side at the session's price when the session began, and has taken no new stamp since.
    pub prior: bool,
}
