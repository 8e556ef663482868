//! A row that the host lends, filled from its front.
ghost use Rattle.std.specs.Prelude.{◌≤◌, length};

use crate::lines::LineFault;

/// The entries are the first `len` of the places. All of them are the room.
#[derive(Drop)]
pub struct Row<'a, T> {
    places: &'a mut [T],
    len: usize,
    ghost fits: { len ≤ length places.now },
}

impl<'a, T: Copy> Row<'a, T> {
    ghost use Rattle.std.specs.Prelude.{◌≡◌, false, [], is_ok, if◌then◌else◌, slice_set};
    ghost use Rattle.std.specs.List.{insert, remove};
    ghost use Rattle.line.specs.Rows.{held, room, room_answer};

    /// An empty row with as much room as there are places.
    pub fn new(places: &'a mut [T]) -> Row<'a, T>
        ensures held { held result ≡ [] }
        ensures room { room result ≡ length places.old }
    {
        Row { places, len: 0 }
    }

    /// The entries, from the front.
    pub fn held(&self) -> &[T]
        ensures { result.now ≡ held self.now }
    {
        &self.places[..self.len]
    }

    /// How many entries the row can hold.
    pub fn room(&self) -> usize
        ensures { result ≡ room self.now }
    {
        self.places.len()
    }

    /// Lets every entry go.
    pub fn clear(&mut self)
        ensures held { held self.new ≡ [] }
        ensures room { room self.new ≡ room self.old }
    {
        self.len = 0;
    }

    /// Puts `entry` at `at`, or behind all if fewer are held. Refused if the row is full.
    pub fn insert(&mut self, at: usize, entry: T) -> Result<(), LineFault>
        ensures answer { result ≡ room_answer (room self.old) (length (held self.old)) }
        ensures held { held self.new ≡ (if is_ok result then insert (held self.old) at entry else held self.old) }
        ensures room { room self.new ≡ room self.old }
        ensures kept { is_ok result ≡ false → self.new ≡ self.old }
    {
        if self.len == self.room() {
            return Err(LineFault::Full);
        }
        let at = at.min(self.len);
        self.places.copy_within(at..self.len, at + 1);
        self.places[at] = entry;
        self.len += 1;
        Ok(())
    }

    /// Takes out the entry at `at`, if as many are held.
    pub fn remove(&mut self, at: usize)
        ensures held { held self.new ≡ remove (held self.old) at }
        ensures room { room self.new ≡ room self.old }
    {
        if at < self.len {
            self.places.copy_within(at + 1..self.len, at);
            self.len -= 1;
        }
    }

    /// Writes `entry` over the one at `at`, if as many are held.
    pub fn set(&mut self, at: usize, entry: T)
        ensures held { held self.new ≡ slice_set (held self.old) at entry }
        ensures room { room self.new ≡ room self.old }
    {
        if at < self.len {
            self.places[at] = entry;
        }
    }
}
