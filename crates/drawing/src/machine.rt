//! The machine that the tape is drawn from: four phases, and what is due.
ghost use Rattle.drawing.specs.Does.{Draws};

use crate::beginning::begin;
use crate::due::{Due, next_step};
use crate::removing::{expire, remove};
use crate::resting::rest;
use crate::trading::trade;
use crate::turning::turn;
use market::record::Record;
use market::state::Phase;
use memory::lines::BookLines;
use memory::memory::Memory;

/// One draw does the first step that applies, and tells what it did.
pub fn draw<L: BookLines>(memory: &mut Memory<L>) -> Record
    ensures { Draws L.Bids.Line L.Offers.Line L.Ends.Line memory.old memory.new result }
{
    match (next_step(memory), memory.board.phase) {
        // Open moves to Timed.
        (Some(Due::Session { trigger, passive }), Phase::Open) => begin(memory, &trigger, &passive),
        // Timed moves to Rolling, Rolling to FBS, and FBS to Open.
        (Some(Due::PhaseEnd { time }), Phase::Timed | Phase::Rolling | Phase::Fbs) => {
            turn(memory, time)
        }
        // In every phase, which stays as it is.
        (Some(Due::Pair { bid, offer }), _) => trade(memory, &bid, &offer),
        (Some(Due::Removal { order, cause }), _) => remove(memory, &order, cause),
        (Some(Due::Expiry { order, time }), _) => expire(memory, &order, time),
        (None, _) => rest(memory),
        // These do not occur: a session begins in Open alone, and Open does not end by itself.
        (Some(Due::Session { .. }), Phase::Timed | Phase::Rolling | Phase::Fbs)
        | (Some(Due::PhaseEnd { .. }), Phase::Open) => rest(memory),
    }
}
