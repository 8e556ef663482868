//! The parts of a book's state that everybody may know, but for its orders.
use crate::order::Side;

/// A book is Open until prices meet. A session then runs, in the phases Timed and Rolling; the FBS Period follows, in which those
/// who traded have privileges; and the book is Open again.
#[derive(Clone, Copy)]
pub enum Phase {
    Open,
    Timed,
    Rolling,
    Fbs,
}

/// Times are in milliseconds.
#[derive(Clone, Copy)]
pub struct Clock {
    /// What the book has reached.
    pub time: u64,
    /// What it is to reach.
    pub wished: u64,
    /// The tape has been drawn to quiet since the last accepted call.
    pub quiet: bool,
}

#[derive(Clone, Copy)]
pub struct Counters {
    /// The number of the next order.
    pub number: u32,
    /// The next stamp.
    pub stamp: u64,
    /// How many fills there were.
    pub fills: u64,
    /// How many entries and changes were accepted.
    pub writes: u32,
    /// The order that the last accepted entry or change named.
    pub incoming: Option<u32>,
}

/// The last session that began. Before the first, nothing reads it.
#[derive(Clone, Copy, Default)]
pub struct Session {
    /// The Work-Up Price, at which all fills of the session are made.
    pub price: i32,
    /// The side that was matched by the order that triggered the session.
    pub passive: Side,
    /// The Passive Owner: the trader of the passive side's first order.
    pub owner: u8,
    /// The trader whose order triggered the session.
    pub trigger: u8,
    /// The Aggressive Owner: the trigger's trader, if he left no prior order before the session's first quiet.
    pub aggressor: Option<u8>,
    /// The session has had its first quiet.
    pub settled: bool,
    /// When the phase began.
    pub since: u64,
    /// When the session's last fill was.
    pub last: u64,
    /// The buyer and the seller of the session's last fill.
    pub buyer: Option<u8>,
    pub seller: Option<u8>,
}

/// A trader's first order on a side to be filled whole in the session.
#[derive(Clone, Copy)]
pub struct Completion {
    /// The fill that completed it.
    pub fill: u64,
    /// The number of the next order then.
    pub number: u32,
}

/// What a trader who was filled in the session has earned on a side for the FBS Period.
#[derive(Clone, Copy, PartialEq, Eq)]
pub enum Priority {
    /// He was filled in part.
    First,
    /// He was filled whole.
    Second,
}

/// Who has a privilege's place.
#[derive(Clone, Copy)]
pub enum Carrier {
    /// Nobody yet: it goes to the trader's next entry on the side at the session's price or worse.
    Free,
    /// The order with this number.
    Order(u32),
    /// Nobody any more.
    Gone,
}

#[derive(Clone, Copy)]
pub struct Privilege {
    pub priority: Priority,
    /// The number of the fill that earned it.
    pub earned: u64,
    pub carrier: Carrier,
}
