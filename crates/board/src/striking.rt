//! An order leaves.
ghost use Rattle.board.specs.Struck.{Strikes};

use crate::board::Board;
use crate::orders::position;
use crate::rows::put;
use crate::seat::Seat;
use arrayvec::ArrayVec;
use market::order::Order;

impl Board {
    // The reserves are a parameter of their own here and in all that changes them: what only decides is given the board alone.

    /// The order leaves the board, and its reserve with it. A Priority 1 that it carried is free again.
    pub fn strike(&mut self, reserves: &mut ArrayVec<u32, 128>, order: &Order)
        ensures { Strikes order.now self.old self.new reserves.old.items reserves.new.items }
    {
        let row = position(&self.orders, order.number);
        put(&mut self.orders, row, None);
        put(reserves, row, None);
        self.privileges.free(Seat::from(order), order.number);
    }
}
