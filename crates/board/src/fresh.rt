//! A board before any call.
ghost use Rattle.std.specs.Prelude.{◌≡◌};
ghost use Rattle.rules.specs.Calls.{opened};

use crate::board::Board;
use crate::privileges::Privileges;
use crate::seats::Seats;
use arrayvec::ArrayVec;
use market::state::{Clock, Counters, Phase, Session};

impl Board {
    /// A quiet board at time 0, Open and without orders.
    pub fn new() -> Board
        ensures { result ≡ opened.board }
    {
        Board {
            orders: ArrayVec::new(),
            phase: Phase::Open,
            clock: Clock {
                time: 0,
                wished: 0,
                quiet: true,
            },
            counters: Counters {
                number: 1,
                stamp: 1,
                fills: 0,
                writes: 0,
                incoming: None,
            },
            // Before the first session nothing reads this.
            session: Session::default(),
            completions: Seats::new(),
            privileges: Privileges::new(),
        }
    }
}
