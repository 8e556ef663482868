//! A line in a row that the host lends, kept as a heap.
ghost use Rattle.line.specs.Held.{Ordered};
ghost use Rattle.line.specs.Rows.{held};
ghost use Rattle.heap_row.specs.Heap.{Heap, sorted};

use crate::heap;
use line::entry::Entry;
use line::lines::{Line, LineFault};
use line::row::Row;

/// The entries of the row lie as a heap, and no two of them are the same.
#[derive(Drop)]
pub struct HeapRow<'a, T: Entry> {
    row: Row<'a, T>,
    ghost heap: { Heap T.Entry.ahead (held row) },
    ghost ordered: { Ordered T.Entry.ahead (sorted T.Entry.ahead (held row)) },
}

impl<'a, T: Entry> HeapRow<'a, T> {
    ghost use Rattle.std.specs.Prelude.{◌≡◌, [], length};
    ghost use Rattle.heap_row.specs.Row.{entries_of, room_of};

    /// An empty line with as much room as `places` has.
    pub fn new(places: &'a mut [T]) -> HeapRow<'a, T>
        ensures entries { entries_of result ≡ [] }
        ensures room { room_of result ≡ length places.old }
    {
        let row = Row::new(places);
        HeapRow { row }
    }
}

impl<'a, T: Entry> Line<T> for HeapRow<'a, T> {
    ghost use Rattle.heap_row.specs.Fits.{sorted-fits};
    ghost use Rattle.heap_row.specs.Row.{entries_of, room_of};

    ghost room = { room_of };

    ghost entries = { entries_of };

    ghost ordered = { λ line. line.ordered };

    ghost fits = { λ line. sorted-fits T.Entry.ahead line.row };

    fn clear(&mut self) {
        self.row.clear();
    }

    fn put(&mut self, entry: T) -> Result<(), LineFault> {
        if heap::find(self.row.held(), &entry).is_some() {
            return Err(LineFault::Held);
        }
        heap::push(&mut self.row, entry)
    }

    fn take(&mut self, entry: T) -> Result<(), LineFault> {
        let Some(at) = heap::find(self.row.held(), &entry) else {
            return Err(LineFault::NotHeld);
        };
        heap::remove(&mut self.row, at);
        Ok(())
    }

    fn first(&self) -> Option<T> {
        self.row.held().first().copied()
    }

    fn next(&self, after: T) -> Option<T> {
        heap::first_behind(self.row.held(), &after)
    }

    fn count(&self) -> usize {
        self.row.held().len()
    }

    fn room(&self) -> usize {
        self.row.room()
    }
}
