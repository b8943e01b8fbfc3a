// Why the joining call refuses: the refusals of the log part, and its own.
ghost use Rattle.std.specs.Prelude.{◌≡◌};
ghost use Rattle.receivers.specs.Refusals.{number_of, offset_of, of_series};

use days::SeriesRefusal;
use records::Reason;

#[derive(Clone, Copy, Debug, PartialEq, Eq)]
pub enum Refusal {
    // One that the log part gives: 1 to 8.
    Log(records::Refusal),
    // 18: the number of logs or the quorum is outside its limits, or the lengths do not add up to the buffer.
    InvalidReceivers,
    // 19: n or T of a log differs from the first log's.
    DifferentShifts,
}

impl From<SeriesRefusal> for Refusal {
    ghost from_gives = { λ refusal result. result ≡ of_series refusal };

    fn from(refusal: SeriesRefusal) -> Refusal {
        match refusal {
            SeriesRefusal::Log(log) => Refusal::Log(log),
            SeriesRefusal::DifferentSizes => Refusal::DifferentShifts,
        }
    }
}

impl Reason for Refusal {
    ghost number = { number_of };

    ghost offset = { offset_of };

    fn number(self) -> u8 {
        match self {
            Refusal::Log(refusal) => refusal.number(),
            Refusal::InvalidReceivers => 18,
            Refusal::DifferentShifts => 19,
        }
    }

    // From the start of the buffer.
    fn offset(self) -> usize {
        match self {
            Refusal::Log(refusal) => refusal.offset(),
            Refusal::InvalidReceivers => 0,
            Refusal::DifferentShifts => 0,
        }
    }
}
