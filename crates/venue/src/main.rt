//! The venue: takes calls on its standard input and answers each as it comes, a record for a draw and a reply for any other message.
//! It stops after a message that cannot be read, or where the input ends.
#![tactic(auto)]

use anyhow::anyhow;
use book::book::Book;
use heap_row::heap_row::HeapRow;
use intake::hold;
use market::answer::{Accepted, Answer};
use market::call::Call;
use market::rank::{BidRank, EndTime, OfferRank};
use market::settings::Settings;
use memory::lines::BookLines;
use ordered_row::ordered_row::OrderedRow;
use std::io;
use std::io::{BufReader, Write};
use wire_in::read::read;
use wire_out::output::Output;
use wire_out::write::write;

/// The book's answer to one call.
// By `play`, since the laws of the answers are of what it hands out.
fn answer_to<L: BookLines>(book: &mut Book<L>, call: Call) -> Answer {
    let mut room = [Ok(Accepted::Done)];
    let _ = book.play(&[call], &mut room);
    room[0]
}

/// Tells an answer, in one write. The longest message has 36 bytes; if one had no room, the venue would end and not go on without it.
fn tell(rt: &HostRuntime, answer: Answer) -> io::Result<()> {
    let mut out = [0u8; 64];
    match write(&Output::from(answer), &mut out) {
        Ok(size) => rt.stdout().write_all(&out[..size]),
        Err(_) => Err(io::Error::other("an answer has no room")),
    }
}

fn serve<L: BookLines>(rt: &HostRuntime, book: &mut Book<L>) -> anyhow::Result<()> {
    let mut input = BufReader::new(rt.alloc(), rt.stdin())?;
    let mut held = Vec::new(rt.alloc());
    // The language proves that every loop ends, and this one ends where the input does: so it is counted.
    for _ in 0..u64::MAX {
        hold(&mut input, &mut held)?;
        if held.is_empty() {
            break;
        }
        let call = read(held.as_slice()).0.map(Call::from);
        let answer = match call {
            Ok(call) => answer_to(book, call),
            Err(refusal) => Err(refusal),
        };
        // `tell` is called in one place, so that the compiler builds it into the loop.
        tell(rt, answer)?;
        if call.is_err() {
            break;
        }
    }
    Ok(())
}

/// Ordered rows for the ranks, and a heap for the end times.
type Kept<'a> = (
    OrderedRow<'a, BidRank>,
    OrderedRow<'a, OfferRank>,
    HeapRow<'a, EndTime>,
);

/// Ten years, the venue's periods, and rooms of 128: ordered rows for the ranks, and a heap for the end times.
fn run(rt: &HostRuntime) -> anyhow::Result<()> {
    let Ok(settings) = Settings::new(10, 10_000, 10_000, 8_000) else {
        return Err(anyhow!("there are no such settings"));
    };
    let mut bids = [BidRank::default(); 128];
    let mut offers = [OfferRank::default(); 128];
    let mut ends = [EndTime::default(); 128];
    let mut book: Book<Kept> = Book::open(
        settings,
        OrderedRow::new(&mut bids),
        OrderedRow::new(&mut offers),
        HeapRow::new(&mut ends),
    );
    serve(rt, &mut book)
}

fn main(rt: HostRuntime) -> anyhow::Result<()> {
    run(&rt)
}
