//! The bids of a morning, in both kinds of line.
use crate::script::Quote;
use line::entry::Entry;
use line::lines::{Line, LineFault};
use market::rank::{BidRank, EndTime, OfOrder};
use market::standing::Standing;
use std::alloc::Global;
use std::cmp::Reverse;
use std::{fmt, iter};

/// The quotes by number, from 1; their ranks in a line that keeps its row in order and in a heap; and their end times.
#[derive(Drop)]
pub struct Bids<O: Drop, H: Drop, E: Drop> {
    quotes: Vec<Quote>,
    time: u64,
    sorted: O,
    heaped: H,
    ends: E,
}

fn rank_of(quote: &Quote, number: u32) -> BidRank {
    BidRank {
        price: Reverse(quote.price),
        standing: Standing::Plain(u64::from(number)),
        number,
    }
}

/// Why a bid is not queued, or an order cannot be cancelled.
#[derive(Clone, Copy)]
enum BidError {
    TooMany,
    EndPast,
    Line(LineFault),
}

impl From<LineFault> for BidError {
    fn from(fault: LineFault) -> BidError {
        BidError::Line(fault)
    }
}

impl fmt::Display for BidError {
    fn fmt<W: fmt::Write>(&self, f: &mut fmt::Formatter<W>) -> fmt::Result {
        match self {
            BidError::TooMany => f.write_str("too many orders"),
            BidError::EndPast => f.write_str("its end is not after the time"),
            BidError::Line(fault) => write!(f, "{fault}"),
        }
    }
}

impl<O: Line<BidRank> + Drop, H: Line<BidRank> + Drop, E: Line<EndTime> + Drop> Bids<O, H, E> {
    pub fn new(heap: Global, sorted: O, heaped: H, ends: E) -> Bids<O, H, E> {
        Bids {
            quotes: Vec::new(heap),
            time: 0,
            sorted,
            heaped,
            ends,
        }
    }

    fn quote(&self, number: u32) -> Option<Quote> {
        let place = (number as usize).checked_sub(1)?;
        self.quotes.get(place).copied()
    }

    /// Puts a bid into the lines, under the next number, which is answered.
    fn queue(&mut self, quote: &Quote) -> Result<u32, BidError> {
        if self.quotes.len() >= 1_000_000 {
            return Err(BidError::TooMany);
        }
        if quote.end.is_some_and(|end| end <= self.time) {
            return Err(BidError::EndPast);
        }
        let number = self.quotes.len() as u32 + 1;
        let rank = rank_of(quote, number);
        self.sorted.put(rank)?;
        // The other lines have the same room and hold no more: they refuse nothing that the first takes.
        let _ = self.heaped.put(rank);
        if let Some(end) = quote.end {
            let _ = self.ends.put(EndTime { end, number });
        }
        Ok(number)
    }

    /// Queues a bid under the next number.
    pub fn enter(&mut self, rt: &HostRuntime, quote: Quote) -> anyhow::Result<()> {
        let Quote {
            trader,
            price,
            size,
            end,
        } = quote;
        let number = match self.queue(&quote) {
            Ok(number) => number,
            Err(why) => return Ok(println!(rt; "trader {trader}'s bid is refused: {why}")?),
        };
        self.quotes.push(quote)?;
        println!(rt; "order {number}: trader {trader} bids {price} for {size}")?;
        if let Some(end) = end {
            println!(rt; "    it ends at {end}")?;
        }
        Ok(())
    }

    /// Lets an order go from every line.
    fn drop_order(&mut self, number: u32) -> Result<(), BidError> {
        let quote = self.quote(number).ok_or(LineFault::NotHeld)?;
        let rank = rank_of(&quote, number);
        self.sorted.take(rank)?;
        // What the first line holds, the others hold too.
        let _ = self.heaped.take(rank);
        if let Some(end) = quote.end {
            let _ = self.ends.take(EndTime { end, number });
        }
        Ok(())
    }

    pub fn cancel(&mut self, rt: &HostRuntime, number: u32) -> anyhow::Result<()> {
        match self.drop_order(number) {
            Ok(()) => println!(rt; "order {number} is cancelled")?,
            Err(why) => println!(rt; "order {number} cannot be cancelled: {why}")?,
        }
        Ok(())
    }

    /// Lets the time pass: orders end in the order of their end times.
    pub fn reach(&mut self, rt: &HostRuntime, time: u64) -> anyhow::Result<()> {
        if time < self.time {
            let now = self.time;
            return Ok(println!(rt; "the time is {now} already")?);
        }
        self.time = time;
        println!(rt; "time {time}")?;
        // Counted, since a loop has to be shown to end, and each round lets one end time go.
        for _ in 0..self.ends.count() {
            let Some(EndTime { end, number }) = self.ends.first().filter(|next| next.end <= time)
            else {
                break;
            };
            // An order with an end time in its line is in the others too.
            let _ = self.drop_order(number);
            println!(rt; "    order {number} ends at {end}")?;
        }
        Ok(())
    }

    /// Prints the queue, and whether the two kinds of line agree on it.
    pub fn show(&self, rt: &HostRuntime) -> anyhow::Result<()> {
        let count = self.sorted.count();
        println!(rt; "the queue, {count} in all:")?;
        let sorted = iter::successors(self.sorted.first(), |rank| self.sorted.next(*rank));
        let heaped = iter::successors(self.heaped.first(), |rank| self.heaped.next(*rank));
        for (place, (rank, other)) in (1..=count).zip(sorted.zip(heaped)) {
            self.show_one(rt, place, &rank, &other)?;
        }
        if self.heaped.count() < count {
            println!(rt; "    the lines differ")?;
        }
        Ok(())
    }

    fn show_one(
        &self,
        rt: &HostRuntime,
        place: usize,
        rank: &BidRank,
        other: &BidRank,
    ) -> anyhow::Result<()> {
        let number = rank.order();
        if other.order() != number {
            return Ok(println!(rt; "    the lines differ at order {number}")?);
        }
        let Some(quote) = self.quote(number) else {
            return Ok(());
        };
        let Quote {
            trader,
            price,
            size,
            ..
        } = quote;
        Ok(println!(rt; "    {place}. order {number} of trader {trader}: {price} for {size}")?)
    }
}
