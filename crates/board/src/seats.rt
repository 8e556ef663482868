//! Tables with a place for each trader on each side.
ghost use Rattle.std.specs.Prelude.{◌≡◌, length};
ghost use Rattle.rules.specs.Board.{lookup, place, empty};

use crate::seat::Seat;
use std::marker::Model;

/// What each trader from 0 to 128 has on each side, if anything.
#[derive(Clone, Copy)]
pub struct Seats<T: Copy> {
    places: [Option<T>; 258],
}

impl<T: Copy> Model for Seats<T> {
    ghost use Rattle.std.specs.Prelude.{◌≡◌, length};
    ghost use Rattle.rules.specs.Board.{Table};

    ghost Value = { Table T };

    ghost view = { λ s. s.places };

    ghost inverse = { λ xs. record { places = xs } };

    ghost invariant = { λ s. length s.places ≡ 258 };
}

impl<T: Copy> Seats<T> {
    /// Nobody has anything.
    pub fn new() -> Seats<T>
        ensures { result ≡ empty }
    {
        Seats {
            places: [None; 258],
        }
    }

    /// What stands in these places, by the numbers of the seats.
    pub(crate) fn filled(places: [Option<T>; 258]) -> Seats<T>
        ensures { result ≡ places }
    {
        Seats { places }
    }

    /// How many seats there are: 258, two for each trader from 0 to 128.
    pub fn len(&self) -> usize
        ensures value { result ≡ length self.now }
        ensures seats { length self.now ≡ 258 }
    {
        // Lent as a slice: an array's length is a constant, and the check would not look at the places for it.
        let places: &[Option<T>] = &self.places;
        places.len()
    }

    /// What the trader has on the side.
    pub fn at(&self, seat: Seat) -> Option<T>
        ensures { result ≡ lookup self.now seat.trader seat.side }
    {
        *self.places.get(seat.number())?
    }

    /// The trader has this on the side from now on, if there is such a trader.
    pub fn put(&mut self, seat: Seat, item: T)
        ensures { self.new ≡ place seat.trader seat.side item self.old }
    {
        // An index and not `get_mut`: of a write through that, behind the model, the check did not find the proof.
        let number = seat.number();
        if number < self.places.len() {
            self.places[number] = Some(item);
        }
    }
}
