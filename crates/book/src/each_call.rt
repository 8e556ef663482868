//! The calls of a book.
ghost use Rattle.std.specs.Prelude.{◌≡◌, false, List, [], is_ok, Ok};
ghost use Rattle.market.specs.declared.answer.Accepted.TheVariants.{Drawn};
ghost use Rattle.market.specs.declared.call.Call.{Call};
ghost use Rattle.market.specs.declared.call.Call.TheVariants.{Entry, Change, Cancel, Tick, Draw};
ghost use Rattle.rules.specs.Board.{Opening};
ghost use Rattle.rules.specs.Calls.{run, opened};
ghost use Rattle.rules.specs.Summaries.{summary as summary_of};
ghost use Rattle.calls.specs.Obeys.{entry_answer, plain_answer};
ghost use Rattle.calls.specs.Openings.{opening_with};
ghost use Rattle.book.specs.Stands.{Stands, Follows};

use crate::book::Book;
use calls::{cancelling, changing, entering, glancing, opening, ticking};
use drawing::machine;
use market::answer::{Accepted, Answer, Summary};
use market::call::{Call, OrderCancel, OrderChange, OrderEntry};
use market::order::Side;
use market::record::Record;
use market::refusal::Refusal;
use market::settings::Settings;
use memory::lines::BookLines;

impl<L: BookLines> Book<L> {
    /// A quiet book at time 0 without orders, over made settings and three lines, which it empties.
    pub fn open(settings: Settings, bids: L::Bids, offers: L::Offers, ends: L::Ends) -> Book<L>
        ensures { Stands L.Bids.Line L.Offers.Line L.Ends.Line result (opening_with L.Bids.Line L.Offers.Line L.Ends.Line settings bids offers ends) [] }
    {
        Book {
            memory: opening::open(settings, bids, offers, ends),
        }
    }

    /// A new order; its number is answered.
    pub fn enter(&mut self, wanted: &OrderEntry) -> Result<u32, Refusal>
        ensures follows { Follows L.Bids.Line L.Offers.Line L.Ends.Line self.old self.new (Entry wanted.now) (entry_answer result) }
        ensures kept { is_ok result ≡ false → self.new ≡ self.old }
    {
        entering::enter(&mut self.memory, wanted)
    }

    /// Price and sizes of a live order, written anew.
    pub fn change(&mut self, wanted: &OrderChange) -> Result<(), Refusal>
        ensures follows { Follows L.Bids.Line L.Offers.Line L.Ends.Line self.old self.new (Change wanted.now) (plain_answer result) }
        ensures kept { is_ok result ≡ false → self.new ≡ self.old }
    {
        changing::change(&mut self.memory, wanted)
    }

    /// A live order taken back.
    pub fn cancel(&mut self, wanted: &OrderCancel) -> Result<(), Refusal>
        ensures follows { Follows L.Bids.Line L.Offers.Line L.Ends.Line self.old self.new (Cancel wanted.now) (plain_answer result) }
        ensures kept { is_ok result ≡ false → self.new ≡ self.old }
    {
        cancelling::cancel(&mut self.memory, wanted)
    }

    /// The time that the book is to reach.
    pub fn tick(&mut self, time: u64) -> Result<(), Refusal>
        ensures follows { Follows L.Bids.Line L.Offers.Line L.Ends.Line self.old self.new (Tick time) (plain_answer result) }
        ensures kept { is_ok result ≡ false → self.new ≡ self.old }
    {
        ticking::tick(&mut self.memory, time)
    }

    /// The tape's next record.
    pub fn draw(&mut self) -> Record
        ensures { Follows L.Bids.Line L.Offers.Line L.Ends.Line self.old self.new Draw (Ok (Drawn result)) }
    {
        machine::draw(&mut self.memory)
    }

    /// A side at a glance; none if it is empty.
    pub fn summary(&self, side: Side) -> Option<Summary>
        ensures { (k : Opening) (cs : List Call) → Stands L.Bids.Line L.Offers.Line L.Ends.Line self.now k cs → result ≡ summary_of (run k opened cs).board side }
    {
        glancing::summary(&self.memory, side)
    }

    /// Any call, with its one answer.
    pub fn answer(&mut self, call: Call) -> Answer
        ensures { Follows L.Bids.Line L.Offers.Line L.Ends.Line self.old self.new call result }
    {
        match call {
            Call::Entry(wanted) => self.enter(&wanted).map(Accepted::Entered),
            Call::Change(wanted) => self.change(&wanted).map(|()| Accepted::Done),
            Call::Cancel(wanted) => self.cancel(&wanted).map(|()| Accepted::Done),
            Call::Tick { time } => self.tick(time).map(|()| Accepted::Done),
            Call::Draw => Ok(Accepted::Drawn(self.draw())),
        }
    }
}
