//! Call messages.
ghost use Rattle.std.specs.Prelude.{◌≡◌};
ghost use Rattle.wire_in.specs.Messages.{said, call_of};

use market::call::{Call, OrderCancel, OrderChange, OrderEntry};

/// A call as a message brings it. An entry may carry a reference of up to 16 bytes, which mean something to its trader alone: it is
/// a part of the bytes that the message was read from.
#[derive(Clone, Copy)]
pub enum CallMessage<'a> {
    Entry {
        order: OrderEntry,
        reference: &'a [u8],
    },
    Change(OrderChange),
    Cancel(OrderCancel),
    Tick {
        time: u64,
    },
    Draw,
}

/// The call, without the reference.
impl From<CallMessage<'_>> for Call {
    ghost from_gives = { λ message call. call ≡ call_of (said message) };

    fn from(message: CallMessage<'_>) -> Call {
        match message {
            CallMessage::Entry { order, .. } => Call::Entry(order),
            CallMessage::Change(change) => Call::Change(change),
            CallMessage::Cancel(cancel) => Call::Cancel(cancel),
            CallMessage::Tick { time } => Call::Tick { time },
            CallMessage::Draw => Call::Draw,
        }
    }
}
