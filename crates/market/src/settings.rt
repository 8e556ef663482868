//! What a book is opened with.
ghost use Rattle.std.specs.Prelude.{◌≡◌, true};
ghost use Rattle.market.specs.Tenors.{lawful};

/// The swap's tenor in years, and how long the phases last, in milliseconds. The tenor fixes the lot, of which all sizes are
/// multiples.
#[derive(Clone, Copy)]
pub struct Settings {
    pub tenor: u8,
    pub timed: u64,
    pub rolling: u64,
    pub fbs: u64,
    ghost made: { lawful tenor timed rolling fbs ≡ true },
}
