//! Examples of the vocabulary at work.
#![tactic(auto)]

#[cfg(test)]
mod tests {
    use line::entry::Entry;
    use line::lines::LineFault;
    use market::price::SidePrice;
    use market::rank::{BidRank, OfferRank, Rank};
    use market::refusal::{BookFault, Layer, MessageFault, Refusal};
    use market::settings::Settings;
    use market::standing::Standing;
    use std::cmp::Reverse;

    fn lot_of(tenor: u8) -> Option<u32> {
        Settings::new(tenor, 10_000, 10_000, 8_000)
            .ok()
            .map(|settings| settings.lot())
    }

    #[test]
    fn each_tenor_has_its_lot(rt: HostRuntime) {
        let cases = [
            (0, None),
            (1, Some(250)),
            (2, Some(250)),
            (3, Some(150)),
            (5, Some(100)),
            (7, Some(75)),
            (8, Some(50)),
            (12, Some(50)),
            (13, Some(25)),
            (30, Some(25)),
            (31, None),
            (40, Some(10)),
            (41, None),
        ];
        for (tenor, lot) in cases {
            assert_eq!(rt; lot_of(tenor), lot);
        }
    }

    #[test]
    fn periods_last_up_to_a_minute(rt: HostRuntime) {
        assert!(rt; Settings::new(10, 1, 60_000, 1).is_ok());
        assert!(rt; Settings::new(10, 0, 1, 1).is_err());
        assert!(rt; Settings::new(10, 1, 60_001, 1).is_err());
        assert!(rt; Settings::new(10, 1, 1, 0).is_err());
    }

    #[test]
    fn a_refusal_keeps_number_layer_and_byte(rt: HostRuntime) {
        let short = Refusal::Message(MessageFault::Short { present: 3 });
        assert!(rt; short.number() == 2 && short.layer() == Layer::Message);
        assert_eq!(rt; short.byte(), Some(3));
        let own = Refusal::Book(BookFault::Own);
        assert!(rt; own.number() == 15 && own.layer() == Layer::Book);
        assert_eq!(rt; own.byte(), None);
        let full = Refusal::Line(LineFault::Full);
        assert!(rt; full.number() == 18 && full.layer() == Layer::Line);
    }

    fn rank<P: SidePrice>(price: i32, standing: Standing, number: u32) -> Rank<P> {
        Rank {
            price: P::of(price),
            standing,
            number,
        }
    }

    #[test]
    fn ranks_go_by_price_class_place_and_number(rt: HostRuntime) {
        let bid: BidRank = rank(-2, Standing::Plain(9), 9);
        assert!(rt; bid.is_ahead(&rank(-3, Standing::Last(1), 1)));
        let offer: OfferRank = rank(-3, Standing::Plain(9), 9);
        assert!(rt; offer.is_ahead(&rank(-2, Standing::Last(1), 1)));
        let newest: OfferRank = rank(5, Standing::Second(Reverse(8)), 2);
        assert!(rt; newest.is_ahead(&rank(5, Standing::Second(Reverse(7)), 1)));
        assert!(rt; newest.is_ahead(&rank(5, Standing::Plain(1), 1)));
        assert!(rt; !newest.is_ahead(&rank(5, Standing::First(9), 3)));
    }

    #[test]
    fn a_rank_of_no_order_is_plain(rt: HostRuntime) {
        assert!(rt; BidRank::default() == rank(0, Standing::Plain(0), 0));
        assert!(rt; OfferRank::default() == rank(0, Standing::Plain(0), 0));
    }
}
