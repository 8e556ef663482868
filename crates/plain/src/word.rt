//! Words, and what single ones mean.
ghost use Rattle.std.specs.Prelude.{◌≡◌, ℕ, List, Option};
ghost use Rattle.plain.specs.Words.{blank, trimmed, first_word, after_word, side_of, type_of, verb_of};

use market::order::{OrderType, Side};

/// The calls by their names.
#[derive(Clone, Copy)]
pub(crate) enum Verb {
    Entry,
    Change,
    Cancel,
    Tick,
    Draw,
}

/// A value that a word can write.
pub(crate) trait FromWord: Sized {
    // The value that a word writes, if it writes one of this type.
    ghost written: { List ℕ → Option Self };

    fn from_word(word: &[u8]) -> Option<Self>
        ensures { result ≡ written word.now };
}

// Byte strings as patterns of a `match` were tried in the words below, and the proof did not close.
impl FromWord for Side {
    ghost written = { side_of };

    fn from_word(word: &[u8]) -> Option<Side> {
        if word == b"bid".as_slice() {
            Some(Side::Bid)
        } else if word == b"offer".as_slice() {
            Some(Side::Offer)
        } else {
            None
        }
    }
}

impl FromWord for OrderType {
    ghost written = { type_of };

    fn from_word(word: &[u8]) -> Option<OrderType> {
        if word == b"FaS".as_slice() {
            Some(OrderType::FaS)
        } else if word == b"FaK".as_slice() {
            Some(OrderType::FaK)
        } else if word == b"FaKI".as_slice() {
            Some(OrderType::FaKI)
        } else {
            None
        }
    }
}

impl FromWord for Verb {
    ghost written = { verb_of };

    fn from_word(word: &[u8]) -> Option<Verb> {
        if word == b"entry".as_slice() {
            Some(Verb::Entry)
        } else if word == b"change".as_slice() {
            Some(Verb::Change)
        } else if word == b"cancel".as_slice() {
            Some(Verb::Cancel)
        } else if word == b"tick".as_slice() {
            Some(Verb::Tick)
        } else if word == b"draw".as_slice() {
            Some(Verb::Draw)
        } else {
            None
        }
    }
}

/// Words are parted by spaces, tabs and carriage returns.
fn is_blank(byte: u8) -> bool
    ensures { result ≡ blank byte }
{
    matches!(byte, b' ' | b'\t' | b'\r')
}

/// A text from its first word on.
fn trim(text: &[u8]) -> &[u8]
    ensures { result.now ≡ trimmed text.now }
{
    let blanks = text.iter().take_while(|byte| is_blank(**byte)).count();
    &text[blanks..]
}

/// The first word of a text, which is empty where there is none, and what follows it.
pub(crate) fn cut(text: &[u8]) -> (&[u8], &[u8])
    ensures first { result.0.now ≡ first_word text.now }
    ensures rest { result.1.now ≡ after_word text.now }
{
    let text = trim(text);
    let end = text.iter().take_while(|byte| !is_blank(**byte)).count();
    text.split_at(end)
}
