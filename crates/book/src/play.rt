//! A run of calls.
ghost use Rattle.book.specs.Stands.{Played};

use crate::book::Book;
use market::answer::Answer;
use market::call::Call;
use memory::lines::BookLines;

impl<L: BookLines> Book<L> {
    /// Answers the calls one after another, as many as there is room for answers, and says how many.
    pub fn play(&mut self, calls: &[Call], room: &mut [Answer]) -> usize
        ensures { Played L.Bids.Line L.Offers.Line L.Ends.Line self.old self.new calls.now room.old room.new result }
    {
        let count = calls.len().min(room.len());
        // The room is written by place: of what is written through an adapter of `iter_mut` nothing is known afterwards.
        for (i, call) in calls[..count].iter().enumerate() {
            room[i] = self.answer(*call);
        }
        count
    }
}
