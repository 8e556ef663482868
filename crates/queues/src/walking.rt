//! A walk along a line.
ghost use Rattle.std.specs.Prelude.{◌≡◌};
ghost use Rattle.std.specs.Iterator.{YieldsFirst, item_count};
ghost use Rattle.queues.specs.Walking.{left_after, with_behind};

use line::entry::Entry;
use line::lines::Line;

/// The entries of a line, from the first to the last.
#[derive(Drop)]
pub(crate) struct Along<'a, T: Entry, L: Line<T>> {
    line: &'a L,
    /// The entry that came last, if one has come.
    last: Option<T>,
}

impl<'a, T: Entry, L: Line<T>> Along<'a, T, L> {
    /// All of the line is left.
    pub(crate) fn new(line: &'a L) -> Along<'a, T, L>
        ensures { left_after T.Entry.ahead result.last (L.Line.entries result.line.now) ≡ L.Line.entries line.now }
    {
        Along { line, last: None }
    }

    /// The entry that comes next, if one is left.
    fn upcoming(&self) -> Option<T>
        ensures { with_behind T.Entry.ahead result (L.Line.entries self.now.line.now) ≡ left_after T.Entry.ahead self.now.last (L.Line.entries self.now.line.now) }
    {
        match self.last {
            None => self.line.first(),
            Some(last) => self.line.next(last),
        }
    }
}

impl<'a, T: Entry, L: Line<T>> Iterator for Along<'a, T, L> {
    type Item = T;

    ghost next_gives = { YieldsFirst (λ s. left_after T.Entry.ahead s.last (L.Line.entries s.line.now)) };

    ghost remaining = { item_count (λ s. left_after T.Entry.ahead s.last (L.Line.entries s.line.now)) };

    fn next(&mut self) -> Option<T> {
        let entry = self.upcoming()?;
        self.last = Some(entry);
        Some(entry)
    }
}
