//! The fields that messages are made of.

/// A field of a message.
#[derive(Clone, Copy)]
pub enum Field {
    /// One byte.
    Byte(u8),
    /// An order number or a size, in 4 bytes.
    Number(u32),
    /// Ticks, in 4 bytes.
    Price(i32),
    /// Milliseconds, in 8 bytes.
    Time(u64),
}
