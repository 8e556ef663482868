//! Calls from lines of words.
ghost use Rattle.std.specs.Prelude.{◌≡◌};
ghost use Rattle.plain.specs.Grammar.{both, followed, shown, value_in, written_in, end_in, known_in, ended_in, reference_in, entry_in, change_in, cancel_in, tick_in, call_in, line_in, heard, heard_line};

use crate::fault::{Name, TextFault};
use crate::word::{FromWord, Verb, cut};
use market::call::{OrderCancel, OrderChange, OrderEntry};
use wire_in::message::CallMessage;

/// The word behind the name of a field, and what follows it.
fn value<'a>(text: &'a [u8], name: Name) -> Result<(&'a [u8], &'a [u8]), TextFault>
    ensures { both result ≡ value_in name text.now }
{
    let (word, rest) = cut(text);
    if word != name.text().as_bytes() {
        return Err(TextFault::Missing(name));
    }
    Ok(cut(rest))
}

/// What the first word writes, and what follows it.
fn known<'a, T: FromWord>(text: &'a [u8], fault: TextFault) -> Result<(T, &'a [u8]), TextFault>
    ensures { followed result ≡ known_in T.written fault text.now }
{
    let (word, rest) = cut(text);
    let value = T::from_word(word).ok_or(fault)?;
    Ok((value, rest))
}

/// The number behind the name of a field, and what follows it.
fn number<'a, T: FromWord>(text: &'a [u8], name: Name) -> Result<(T, &'a [u8]), TextFault>
    ensures { followed result ≡ written_in T.written name text.now }
{
    let (word, rest) = value(text, name)?;
    let n = T::from_word(word).ok_or(TextFault::Value(name))?;
    Ok((n, rest))
}

/// `none`, or a time above 0.
fn end_time<'a>(text: &'a [u8]) -> Result<(Option<u64>, &'a [u8]), TextFault>
    ensures { followed result ≡ end_in text.now }
{
    let (word, rest) = value(text, Name::End)?;
    if word == b"none".as_slice() {
        return Ok((None, rest));
    }
    match u64::from_word(word) {
        None | Some(0) => Err(TextFault::Value(Name::End)),
        time => Ok((time, rest)),
    }
}

/// Nothing may follow the last field.
fn ended(text: &[u8]) -> Result<(), TextFault>
    ensures { result ≡ ended_in text.now }
{
    let (word, _) = cut(text);
    if word.is_empty() {
        Ok(())
    } else {
        Err(TextFault::More)
    }
}

/// The reference that ends a line, of 1 to 16 bytes; or an empty one, where nothing is left.
fn reference<'a>(text: &'a [u8]) -> Result<&'a [u8], TextFault>
    ensures { shown result ≡ reference_in text.now }
{
    let (first, _) = cut(text);
    if first.is_empty() {
        return Ok(&[]);
    }
    let (word, rest) = value(text, Name::Reference)?;
    if word.is_empty() || 16 < word.len() {
        return Err(TextFault::Value(Name::Reference));
    }
    ended(rest)?;
    Ok(word)
}

fn entry<'a>(text: &'a [u8]) -> Result<CallMessage<'a>, TextFault>
    ensures { heard result ≡ entry_in text.now }
{
    let (trader, text) = number(text, Name::Trader)?;
    let (side, text) = known(text, TextFault::Side)?;
    let (kind, text) = known(text, TextFault::OrderType)?;
    let (price, text) = number(text, Name::Price)?;
    let (displayed, text) = number(text, Name::Displayed)?;
    let (reserve, text) = number(text, Name::Reserve)?;
    let (end, text) = end_time(text)?;
    let reference = reference(text)?;
    let order = OrderEntry {
        trader,
        side,
        kind,
        price,
        displayed,
        reserve,
        end,
    };
    Ok(CallMessage::Entry { order, reference })
}

fn change(text: &[u8]) -> Result<OrderChange, TextFault>
    ensures { result ≡ change_in text.now }
{
    let (trader, text) = number(text, Name::Trader)?;
    let (order, text) = number(text, Name::Order)?;
    let (price, text) = number(text, Name::Price)?;
    let (displayed, text) = number(text, Name::Displayed)?;
    let (reserve, text) = number(text, Name::Reserve)?;
    ended(text)?;
    Ok(OrderChange {
        trader,
        number: order,
        price,
        displayed,
        reserve,
    })
}

fn cancel(text: &[u8]) -> Result<OrderCancel, TextFault>
    ensures { result ≡ cancel_in text.now }
{
    let (trader, text) = number(text, Name::Trader)?;
    let (order, text) = number(text, Name::Order)?;
    ended(text)?;
    Ok(OrderCancel {
        trader,
        number: order,
    })
}

fn tick(text: &[u8]) -> Result<u64, TextFault>
    ensures { result ≡ tick_in text.now }
{
    let (time, text) = number(text, Name::Time)?;
    ended(text)?;
    Ok(time)
}

/// The call of this name, whose fields are `text`.
fn call<'a>(verb: Verb, text: &'a [u8]) -> Result<CallMessage<'a>, TextFault>
    ensures { heard result ≡ call_in verb text.now }
{
    match verb {
        Verb::Entry => entry(text),
        Verb::Change => Ok(CallMessage::Change(change(text)?)),
        Verb::Cancel => Ok(CallMessage::Cancel(cancel(text)?)),
        Verb::Tick => Ok(CallMessage::Tick { time: tick(text)? }),
        Verb::Draw => {
            ended(text)?;
            Ok(CallMessage::Draw)
        }
    }
}

/// The call that a line makes; none, if the line is empty or begins with `#`.
pub fn parse<'a>(line: &'a [u8]) -> Result<Option<CallMessage<'a>>, TextFault>
    ensures { heard_line result ≡ line_in line.now }
{
    let (word, text) = cut(line);
    if word.is_empty() || word[0] == b'#' {
        return Ok(None);
    }
    let verb = Verb::from_word(word).ok_or(TextFault::Call)?;
    call(verb, text).map(Some)
}
