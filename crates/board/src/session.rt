//! Prices against the session's.
ghost use Rattle.std.specs.Prelude.{◌≡◌, ◌&&◌};
ghost use Rattle.rules.specs.Board.{better, in_session};
ghost use Rattle.rules.specs.Refusing.{entry_price};

use crate::board::Board;
use crate::phases::in_session;
use crate::prices::is_better;
use market::order::Side;

impl Board {
    /// Whether a session runs and the price is better than its price.
    pub fn beats_session(&self, side: Side, price: i32) -> bool
        ensures { result ≡ (in_session self.now.phase && better side price self.now.session.price) }
    {
        in_session(self.phase) && is_better(side, price, self.session.price)
    }

    /// The price of an entry: in a session, one that is better than its price is re-priced to that.
    pub fn entry_price(&self, side: Side, price: i32) -> i32
        ensures { result ≡ entry_price self.now side price }
    {
        if self.beats_session(side, price) {
            self.session.price
        } else {
            price
        }
    }
}
