//! A line in a row that the host lends, kept in order.
ghost use Rattle.line.specs.Held.{Ordered};
ghost use Rattle.line.specs.Rows.{held};

use line::entry::Entry;
use line::lines::{Line, LineFault};
use line::row::Row;

/// Each entry of the row is ahead of the next.
#[derive(Drop)]
pub struct OrderedRow<'a, T: Entry> {
    row: Row<'a, T>,
    ghost ordered: { Ordered T.Entry.ahead (held row) },
}

impl<'a, T: Entry> OrderedRow<'a, T> {
    ghost use Rattle.std.specs.Prelude.{◌≡◌, [], length};
    ghost use Rattle.line.specs.Held.{Seat};
    ghost use Rattle.ordered_row.specs.Found.{Found};
    ghost use Rattle.ordered_row.specs.Row.{entries_of, room_of};

    /// An empty line with as much room as `places` has.
    pub fn new(places: &'a mut [T]) -> OrderedRow<'a, T>
        ensures entries { entries_of result ≡ [] }
        ensures room { room_of result ≡ length places.old }
    {
        let row = Row::new(places);
        OrderedRow { row }
    }

    /// How many entries are ahead of `entry`.
    fn seat(&self, entry: &T) -> usize
        ensures { Seat T.Entry.ahead entry.now (entries_of self.now) result }
    {
        self.row
            .held()
            .partition_point(|other| other.is_ahead(entry))
    }

    /// Where `entry` stands, or else where it belongs.
    fn find(&self, entry: &T) -> Result<usize, usize>
        ensures { Found T.Entry.ahead entry.now (entries_of self.now) result }
    {
        let at = self.seat(entry);
        match self.row.held().get(at) {
            Some(other) if !entry.is_ahead(other) => Ok(at),
            _ => Err(at),
        }
    }
}

impl<'a, T: Entry> Line<T> for OrderedRow<'a, T> {
    ghost use Rattle.line.specs.Rows.{held-fits};
    ghost use Rattle.ordered_row.specs.Row.{entries_of, room_of};

    ghost room = { room_of };

    ghost entries = { entries_of };

    ghost ordered = { λ line. line.ordered };

    ghost fits = { λ line. held-fits line.row };

    fn clear(&mut self) {
        self.row.clear();
    }

    fn put(&mut self, entry: T) -> Result<(), LineFault> {
        match self.find(&entry) {
            Ok(_) => Err(LineFault::Held),
            Err(at) => self.row.insert(at, entry),
        }
    }

    fn take(&mut self, entry: T) -> Result<(), LineFault> {
        let Ok(at) = self.find(&entry) else {
            return Err(LineFault::NotHeld);
        };
        self.row.remove(at);
        Ok(())
    }

    fn first(&self) -> Option<T> {
        self.row.held().first().copied()
    }

    fn next(&self, after: T) -> Option<T> {
        let held = self.row.held();
        let at = held.partition_point(|entry| !after.is_ahead(entry));
        held.get(at).copied()
    }

    fn count(&self) -> usize {
        self.row.held().len()
    }

    fn room(&self) -> usize {
        self.row.room()
    }
}
