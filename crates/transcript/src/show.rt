//! Messages in plain words. A call is shown as the line that makes it.
use market::call::{OrderCancel, OrderChange, OrderEntry};
use market::record::{Fill, Record};
use market::refusal::Refusal;
use std::fmt;
use std::fmt::Write;
use wire::message::Message;
use wire_in::message::CallMessage;
use wire_out::output::Output;

/// A message, a part of one or a refusal, to be told in words.
#[derive(Clone, Copy)]
pub struct InWords<T>(pub T);

/// What a refusal's number means.
// By the number, since a reply brings no more of its refusal.
fn meaning(number: u8) -> &'static str {
    match number {
        1 => "the tenor or a period is out of range",
        2 => "the message is not all there, or its length is below 2",
        3 => "there is no such version",
        4 => "there is no such kind",
        5 => "the length does not fit the kind",
        6 => "there is no such side or no such type",
        7 => "the tape is not quiet",
        8 => "the time is before the book's or past the last",
        9 => "there is no such trader",
        10 => "no live order of this trader has that number",
        11 => "the price is out of range",
        12 => "a size is no multiple of the lot or too large, or the displayed size is 0",
        13 => "the end time is not after the book's time or past the last",
        14 => "a change in a session is better than its price",
        15 => "the trader's own order on the other side would meet the price",
        16 => "no more entries and changes are accepted",
        17 => "no more orders can be live",
        18 => "a line is at its room",
        19 => "the buffer is too short",
        _ => "there is no such refusal",
    }
}

impl fmt::Display for InWords<OrderEntry> {
    fn fmt<W: fmt::Write>(&self, f: &mut fmt::Formatter<W>) -> fmt::Result {
        let InWords(order) = self;
        write!(
            f,
            "entry trader {} {} {} price {} displayed {} reserve {} end ",
            order.trader, order.side, order.kind, order.price, order.displayed, order.reserve
        )?;
        match order.end {
            Some(end) => write!(f, "{end}"),
            None => f.write_str("none"),
        }
    }
}

impl fmt::Display for InWords<OrderChange> {
    fn fmt<W: fmt::Write>(&self, f: &mut fmt::Formatter<W>) -> fmt::Result {
        let InWords(change) = self;
        write!(
            f,
            "change trader {} order {} price {} displayed {} reserve {}",
            change.trader, change.number, change.price, change.displayed, change.reserve
        )
    }
}

impl fmt::Display for InWords<OrderCancel> {
    fn fmt<W: fmt::Write>(&self, f: &mut fmt::Formatter<W>) -> fmt::Result {
        let InWords(cancel) = self;
        write!(f, "cancel trader {} order {}", cancel.trader, cancel.number)
    }
}

/// The reference of an entry behind a blank, as a word or else by the numbers of its bytes; an empty one is left out.
#[derive(Clone, Copy)]
struct Reference<'a>(&'a [u8]);

impl fmt::Display for Reference<'_> {
    fn fmt<W: fmt::Write>(&self, f: &mut fmt::Formatter<W>) -> fmt::Result {
        let Reference(bytes) = *self;
        if bytes.is_empty() {
            return Ok(());
        }
        if bytes.iter().all(u8::is_ascii_graphic) {
            f.write_str(" reference ")?;
            for byte in bytes {
                f.write_char(char::from(*byte))?;
            }
            return Ok(());
        }
        f.write_str(" reference in hex")?;
        for byte in bytes {
            write!(f, " {byte:02x}")?;
        }
        Ok(())
    }
}

impl fmt::Display for InWords<CallMessage<'_>> {
    fn fmt<W: fmt::Write>(&self, f: &mut fmt::Formatter<W>) -> fmt::Result {
        match self.0 {
            CallMessage::Entry { order, reference } => {
                write!(f, "{}{}", InWords(order), Reference(reference))
            }
            CallMessage::Change(change) => write!(f, "{}", InWords(change)),
            CallMessage::Cancel(cancel) => write!(f, "{}", InWords(cancel)),
            CallMessage::Tick { time } => write!(f, "tick time {time}"),
            CallMessage::Draw => f.write_str("draw"),
        }
    }
}

impl fmt::Display for InWords<Fill> {
    fn fmt<W: fmt::Write>(&self, f: &mut fmt::Formatter<W>) -> fmt::Result {
        let InWords(fill) = self;
        write!(
            f,
            "price {} size {} bid {} left {} offer {} left {}",
            fill.price, fill.size, fill.bid, fill.bidleft, fill.offer, fill.offerleft
        )
    }
}

impl fmt::Display for InWords<Record> {
    fn fmt<W: fmt::Write>(&self, f: &mut fmt::Formatter<W>) -> fmt::Result {
        match self.0 {
            Record::Quiet { time } => write!(f, "time {time} quiet"),
            Record::Fill { time, fill } => write!(f, "time {time} fill {}", InWords(fill)),
            Record::Session {
                time,
                price,
                passive,
            } => write!(f, "time {time} session price {price} passive {passive}"),
            Record::Rolling { time } => write!(f, "time {time} Rolling"),
            Record::Fbs { time } => write!(f, "time {time} FBS"),
            Record::Open { time } => write!(f, "time {time} Open"),
            Record::Removal {
                time,
                number,
                displayed,
                cause,
            } => write!(
                f,
                "time {time} removal order {number} displayed {displayed} cause {cause}"
            ),
        }
    }
}

fn show_reply<W: fmt::Write>(refusal: u8, order: u32, f: &mut fmt::Formatter<W>) -> fmt::Result {
    match refusal {
        0 => f.write_str("reply accepted")?,
        _ => write!(f, "reply refused {refusal}")?,
    }
    if order != 0 {
        write!(f, " order {order}")?;
    }
    if refusal != 0 {
        write!(f, ": {}", meaning(refusal))?;
    }
    Ok(())
}

impl fmt::Display for InWords<Output> {
    fn fmt<W: fmt::Write>(&self, f: &mut fmt::Formatter<W>) -> fmt::Result {
        match self.0 {
            Output::Record(told) => write!(f, "{}", InWords(told)),
            Output::Reply { refusal, order } => show_reply(refusal, order, f),
        }
    }
}

impl fmt::Display for InWords<Message<'_>> {
    fn fmt<W: fmt::Write>(&self, f: &mut fmt::Formatter<W>) -> fmt::Result {
        match self.0 {
            Message::Call(call) => write!(f, "{}", InWords(call)),
            Message::Output(output) => write!(f, "{}", InWords(output)),
        }
    }
}

/// A refusal by its number, its meaning and its byte.
impl fmt::Display for InWords<Refusal> {
    fn fmt<W: fmt::Write>(&self, f: &mut fmt::Formatter<W>) -> fmt::Result {
        let InWords(refusal) = *self;
        let number = refusal.number();
        write!(f, "refused {number}: {}", meaning(number))?;
        match refusal.byte() {
            Some(byte) if number == 2 => write!(f, " (bytes present: {byte})"),
            Some(byte) => write!(f, " (byte {byte} of the message)"),
            None => Ok(()),
        }
    }
}
