//! Orders as fills change them.
ghost use Rattle.std.specs.Prelude.{◌≡◌};
ghost use Rattle.rules.specs.Fills.{first_fill, executed, restocked};

use market::order::Order;

/// The number of an order's first fill in the session, after one more fill.
// A flag and a number, and no option of the number: the rules' `first_fill` and `executed` take both.
fn first_fill(session: bool, fill: u64, first: Option<u64>) -> Option<u64>
    ensures { result ≡ first_fill session fill first }
{
    first.or(session.then_some(fill))
}

/// The order after a fill with this number took this size of what it displayed.
pub(crate) fn executed(session: bool, fill: u64, size: u32, order: &Order) -> Order
    ensures { result ≡ executed session fill size order.now }
{
    Order {
        displayed: order.displayed.saturating_sub(size),
        filled: true,
        first: first_fill(session, fill, order.first),
        ..*order
    }
}

/// The order with this size displayed from its reserve, and a new stamp. It is prior no more.
pub(crate) fn restocked(size: u32, stamp: u64, order: &Order) -> Order
    ensures { result ≡ restocked size stamp order.now }
{
    Order {
        displayed: size,
        stamp,
        prior: false,
        ..*order
    }
}
