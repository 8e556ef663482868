//! Making settings.
ghost use Rattle.std.specs.Prelude.{◌≡◌};
ghost use Rattle.market.specs.Tenors.{lot_of, within};
ghost use Rattle.market.specs.Making.{Made};

use crate::refusal::Refusal;
use crate::settings::Settings;

/// A phase may last from a millisecond to a minute.
fn lawful_period(period: u64) -> bool
    ensures { result ≡ within 1 60000 period }
{
    1 <= period && period <= 60_000
}

impl Settings {
    /// Settings of this tenor in years and these periods in milliseconds, or a refusal.
    pub fn new(tenor: u8, timed: u64, rolling: u64, fbs: u64) -> Result<Settings, Refusal>
        ensures { Made tenor timed rolling fbs result }
    {
        match tenor {
            1..=30 | 40 => {}
            _ => return Err(Refusal::Settings),
        }
        if !lawful_period(timed) || !lawful_period(rolling) || !lawful_period(fbs) {
            return Err(Refusal::Settings);
        }
        Ok(Settings {
            tenor,
            timed,
            rolling,
            fbs,
        })
    }

    /// The size of which all sizes are multiples.
    pub fn lot(&self) -> u32
        ensures { result ≡ lot_of self.now.tenor }
    {
        match self.tenor {
            0..=2 => 250,
            3 => 150,
            4..=5 => 100,
            6..=7 => 75,
            8..=12 => 50,
            13..=30 => 25,
            _ => 10,
        }
    }
}
