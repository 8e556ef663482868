//! The lines of a morning, as text.
use std::fmt;
use std::ops::RangeInclusive;
use std::str::{FromStr, SplitWhitespace};

/// A bid as it is written.
#[derive(Clone, Copy)]
pub struct Quote {
    pub trader: u8,
    pub price: i32,
    pub size: u32,
    pub end: Option<u64>,
}

/// What a line asks for.
#[derive(Clone, Copy)]
pub enum Step {
    Bid(Quote),
    Cancel(u32),
    Time(u64),
    Queue,
}

/// What is wrong with a line.
#[derive(Clone, Copy)]
pub enum LineError {
    Trader,
    Price,
    Size,
    End,
    AfterSize,
    Number,
    Time,
    Beginning,
    More,
}

impl fmt::Display for LineError {
    fn fmt<W: fmt::Write>(&self, f: &mut fmt::Formatter<W>) -> fmt::Result {
        f.write_str(match self {
            LineError::Trader => "the trader is no number from 1 to 128",
            LineError::Price => "the price is no number from -1000000 to 1000000",
            LineError::Size => "the size is no number above 0",
            LineError::End => "the end time is no number",
            LineError::AfterSize => "after the size only 'until' and a time may stand",
            LineError::Number => "the order's number is none",
            LineError::Time => "the time is no number",
            LineError::Beginning => "it begins with none of bid, cancel, time, queue and #",
            LineError::More => "there is more on it than was expected",
        })
    }
}

/// The number that a word writes, if it is among those that are allowed.
fn number_in<T: FromStr<Err: Drop> + PartialOrd + Drop>(
    allowed: RangeInclusive<T>,
    word: Option<&str>,
) -> Option<T> {
    word?.parse().ok().filter(|number| allowed.contains(number))
}

fn end_of(words: &mut SplitWhitespace) -> Result<Option<u64>, LineError> {
    match words.next() {
        None => Ok(None),
        Some("until") => Ok(Some(number_in(0..=u64::MAX, words.next()).ok_or(LineError::End)?)),
        Some(_) => Err(LineError::AfterSize),
    }
}

fn quote_of(words: &mut SplitWhitespace) -> Result<Quote, LineError> {
    let trader = number_in(1..=128, words.next()).ok_or(LineError::Trader)?;
    let price = number_in(-1_000_000..=1_000_000, words.next()).ok_or(LineError::Price)?;
    let size = number_in(1..=u32::MAX, words.next()).ok_or(LineError::Size)?;
    let end = end_of(words)?;
    Ok(Quote {
        trader,
        price,
        size,
        end,
    })
}

/// What a line asks for, if it is not empty and no comment; or what is wrong with it.
pub fn step_of(text: &str) -> Result<Option<Step>, LineError> {
    let mut words = text.split_whitespace();
    let step = match words.next() {
        None => return Ok(None),
        Some(word) if word.starts_with('#') => return Ok(None),
        Some("bid") => Step::Bid(quote_of(&mut words)?),
        Some("cancel") => {
            Step::Cancel(number_in(1..=u32::MAX, words.next()).ok_or(LineError::Number)?)
        }
        Some("time") => Step::Time(number_in(0..=u64::MAX, words.next()).ok_or(LineError::Time)?),
        Some("queue") => Step::Queue,
        Some(_) => return Err(LineError::Beginning),
    };
    match words.next() {
        None => Ok(Some(step)),
        Some(_) => Err(LineError::More),
    }
}
