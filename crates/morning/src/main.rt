//! A morning's bids: reads orders, cancels and times from its standard input, keeps the queue by rank in both kinds of line, and
//! prints what happens, and the queue when asked. docs/TOOLS.md has the form of its lines.
#![tactic(auto)]

mod book;
mod script;

use book::Bids;
use heap_row::heap_row::HeapRow;
use line::lines::Line;
use market::rank::{BidRank, EndTime};
use ordered_row::ordered_row::OrderedRow;
use script::{Step, step_of};

fn obey<O: Line<BidRank> + Drop, H: Line<BidRank> + Drop, E: Line<EndTime> + Drop>(
    rt: &HostRuntime,
    bids: &mut Bids<O, H, E>,
    step: Step,
) -> anyhow::Result<()> {
    match step {
        Step::Bid(quote) => bids.enter(rt, quote),
        Step::Cancel(number) => bids.cancel(rt, number),
        Step::Time(time) => bids.reach(rt, time),
        Step::Queue => bids.show(rt),
    }
}

fn run(rt: &HostRuntime) -> anyhow::Result<()> {
    let mut sorted = [BidRank::default(); 128];
    let mut heaped = [BidRank::default(); 128];
    let mut ending = [EndTime::default(); 128];
    let mut bids = Bids::new(
        rt.alloc(),
        OrderedRow::new(&mut sorted),
        HeapRow::new(&mut heaped),
        HeapRow::new(&mut ending),
    );
    for (place, text) in (1..=u64::MAX).zip(rt.lines(rt.alloc())) {
        match step_of(text?.as_str()) {
            Ok(Some(step)) => obey(rt, &mut bids, step)?,
            Ok(None) => {}
            Err(fault) => println!(rt; "line {place} is passed over: {fault}")?,
        }
    }
    bids.show(rt)
}

fn main(rt: HostRuntime) -> anyhow::Result<()> {
    run(&rt)
}
