//! What traders and the host ask of a book.
use crate::order::{OrderType, Side};

/// A new order.
#[derive(Clone, Copy)]
pub struct OrderEntry {
    pub trader: u8,
    pub side: Side,
    pub kind: OrderType,
    pub price: i32,
    pub displayed: u32,
    pub reserve: u32,
    pub end: Option<u64>,
}

/// Price and sizes of a live order, written anew.
#[derive(Clone, Copy)]
pub struct OrderChange {
    pub trader: u8,
    pub number: u32,
    pub price: i32,
    pub displayed: u32,
    pub reserve: u32,
}

/// A live order taken back.
#[derive(Clone, Copy)]
pub struct OrderCancel {
    pub trader: u8,
    pub number: u32,
}

#[derive(Clone, Copy)]
pub enum Call {
    Entry(OrderEntry),
    Change(OrderChange),
    Cancel(OrderCancel),
    /// Names the time that the book is to reach.
    Tick { time: u64 },
    /// Asks for the tape's next record.
    Draw,
}
