//! Why a call is refused: each reason has a number, belongs to a layer of the system, and in a message names a byte.
ghost use Rattle.std.specs.Prelude.{◌≡◌};
ghost use Rattle.market.specs.Refusals.{number_of, layer_of, byte_of, message_number, message_byte, book_number};
ghost use Rattle.market.specs.declared.refusal.Refusal.TheVariants.{Message, Book, Line};

use line::lines::LineFault;

/// The layer of the system that refuses.
#[derive(Clone, Copy, PartialEq, Eq)]
pub enum Layer {
    Settings,
    Message,
    Book,
    Line,
    Writer,
}

/// Why the bytes of a call cannot be read.
#[derive(Clone, Copy)]
pub enum MessageFault {
    /// So many bytes are there, fewer than the message has; or its length is below 2.
    Short { present: usize },
    Version,
    Kind,
    /// The length does not fit the kind.
    Length,
    Side,
    OrderType,
}

/// Why the book refuses a call that could be read.
#[derive(Clone, Copy)]
pub enum BookFault {
    /// The tape has not been drawn to quiet.
    NotQuiet,
    /// The wished time is before the book's or past the last that there is.
    Time,
    /// There is no such trader.
    Trader,
    /// No live order of this trader has that number.
    Order,
    /// The price is out of range.
    Price,
    /// A size is no multiple of the lot or too large, or the displayed size is 0.
    Size,
    /// The end time is not after the book's time, or past the last that there is.
    End,
    /// A change in a session may not be better than its price.
    Better,
    /// The trader's own order on the other side would meet the price.
    Own,
    /// So many entries and changes as there may be were accepted.
    Writes,
    /// So many orders as there may be are live.
    Orders,
}

#[derive(Clone, Copy)]
pub enum Refusal {
    /// The tenor or a period is none that there is.
    Settings,
    Message(MessageFault),
    Book(BookFault),
    Line(LineFault),
    /// The buffer is too short for the message to be written.
    Buffer,
}

impl MessageFault {
    fn number(self) -> u8
        ensures { result ≡ message_number self }
    {
        match self {
            MessageFault::Short { .. } => 2,
            MessageFault::Version => 3,
            MessageFault::Kind => 4,
            MessageFault::Length => 5,
            MessageFault::Side | MessageFault::OrderType => 6,
        }
    }

    fn byte(self) -> usize
        ensures { result ≡ message_byte self }
    {
        match self {
            MessageFault::Short { present } => present,
            MessageFault::Version => 2,
            MessageFault::Kind => 3,
            MessageFault::Length => 0,
            MessageFault::Side => 5,
            MessageFault::OrderType => 6,
        }
    }
}

impl BookFault {
    fn number(self) -> u8
        ensures { result ≡ book_number self }
    {
        match self {
            BookFault::NotQuiet => 7,
            BookFault::Time => 8,
            BookFault::Trader => 9,
            BookFault::Order => 10,
            BookFault::Price => 11,
            BookFault::Size => 12,
            BookFault::End => 13,
            BookFault::Better => 14,
            BookFault::Own => 15,
            BookFault::Writes => 16,
            BookFault::Orders => 17,
        }
    }
}

impl Refusal {
    /// Its number, as the reply carries it.
    pub fn number(self) -> u8
        ensures { result ≡ number_of self }
    {
        match self {
            Refusal::Settings => 1,
            Refusal::Message(fault) => fault.number(),
            Refusal::Book(fault) => fault.number(),
            Refusal::Line(_) => 18,
            Refusal::Buffer => 19,
        }
    }

    /// The layer that refuses.
    pub fn layer(self) -> Layer
        ensures { result ≡ layer_of self }
    {
        match self {
            Refusal::Settings => Layer::Settings,
            Refusal::Message(_) => Layer::Message,
            Refusal::Book(_) => Layer::Book,
            Refusal::Line(_) => Layer::Line,
            Refusal::Buffer => Layer::Writer,
        }
    }

    /// The byte of the message that the refusal speaks of.
    pub fn byte(self) -> Option<usize>
        ensures { result ≡ byte_of self }
    {
        match self {
            Refusal::Message(fault) => Some(fault.byte()),
            _ => None,
        }
    }
}

impl From<MessageFault> for Refusal {
    ghost from_gives = { λ f r. r ≡ Message f };

    fn from(fault: MessageFault) -> Refusal {
        Refusal::Message(fault)
    }
}

impl From<BookFault> for Refusal {
    ghost from_gives = { λ f r. r ≡ Book f };

    fn from(fault: BookFault) -> Refusal {
        Refusal::Book(fault)
    }
}

impl From<LineFault> for Refusal {
    ghost from_gives = { λ f r. r ≡ Line f };

    fn from(fault: LineFault) -> Refusal {
        Refusal::Line(fault)
    }
}
