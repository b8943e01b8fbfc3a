// Why reading a series of logs refuses.
ghost use Rattle.std.specs.Prelude.{◌≡◌};
ghost use Rattle.days.specs.declared.refusal.SeriesRefusal.TheVariants.{Log};
ghost use Rattle.days.specs.Refusals.{series_number, series_offset};

use records::{Reason, Refusal};

#[derive(Clone, Copy, Debug, PartialEq, Eq)]
pub enum SeriesRefusal {
    // What refuses one log, or 8.
    Log(Refusal),
    // 19: n or T differs from the first log.
    DifferentSizes,
}

impl From<Refusal> for SeriesRefusal {
    ghost from_gives = { λ refusal result. result ≡ Log refusal };

    fn from(refusal: Refusal) -> SeriesRefusal {
        Self::Log(refusal)
    }
}

impl Reason for SeriesRefusal {
    ghost number = { series_number };

    ghost offset = { series_offset };

    fn number(self) -> u8 {
        match self {
            SeriesRefusal::Log(refusal) => refusal.number(),
            SeriesRefusal::DifferentSizes => 19,
        }
    }

    fn offset(self) -> usize {
        match self {
            SeriesRefusal::Log(refusal) => refusal.offset(),
            SeriesRefusal::DifferentSizes => 0,
        }
    }
}
