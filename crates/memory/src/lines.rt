//! The lines of a book.
use line::lines::Line;
use market::rank::{BidRank, EndTime, OfferRank};

/// The kinds of the three lines of a book: of the ranks of bids, of the ranks of offers, and of end times.
pub trait BookLines {
    type Bids: Line<BidRank> + Drop;

    type Offers: Line<OfferRank> + Drop;

    type Ends: Line<EndTime> + Drop;
}

/// Any three lines make a book.
impl<B: Line<BidRank> + Drop, O: Line<OfferRank> + Drop, E: Line<EndTime> + Drop> BookLines
    for (B, O, E) {
    type Bids = B;

    type Offers = O;

    type Ends = E;
}
