//! Who may trade.
use market::state::{Phase, Session};

/// What decides whether an order of one side may trade. Whether prices meet and the side's best price are told by those who keep
/// the queues.
#[derive(Clone, Copy)]
pub struct Entitlement {
    pub(crate) phase: Phase,
    pub(crate) session: Session,
    /// A prior order is left.
    pub(crate) priors: bool,
    /// Prices meet.
    pub(crate) meets: bool,
    /// The side's best price.
    pub(crate) best: Option<i32>,
}
