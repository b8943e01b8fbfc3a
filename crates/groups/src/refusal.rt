// Why a call of the group part refuses: the refusals of the log part, and its own.
ghost use Rattle.std.specs.Prelude.{◌≡◌};
ghost use Rattle.groups.specs.declared.refusal.Refusal.TheVariants.{Log};
ghost use Rattle.groups.specs.Refusals.{number_of, offset_of};

use logs::Reason;

#[derive(Clone, Copy, Debug, PartialEq, Eq)]
pub enum Refusal {
    // One that the log part gives: 8 to 11 by the calls here, and 1 to 8 by the listing, which reads a log.
    Log(logs::Refusal),
    // 12: a span with first after last, or last of T or more.
    InvalidSpan,
    // 13: the query has a badge of n or more.
    ForeignQuery,
    // 14: h is 0 or above T.
    InvalidParts,
    // 17: a threshold outside its range.
    ThresholdOutOfRange,
    // 20: no badge is under review, or one of n or more is.
    InvalidReview,
    // 21: the query has a badge that is not under review.
    QueryNotReviewed,
}

impl From<logs::Refusal> for Refusal {
    ghost from_gives = { λ refusal result. result ≡ Log refusal };

    fn from(refusal: logs::Refusal) -> Refusal {
        Self::Log(refusal)
    }
}

impl Reason for Refusal {
    ghost number = { number_of };

    ghost offset = { offset_of };

    fn number(self) -> u8 {
        match self {
            Refusal::Log(refusal) => refusal.number(),
            Refusal::InvalidSpan => 12,
            Refusal::ForeignQuery => 13,
            Refusal::InvalidParts => 14,
            Refusal::ThresholdOutOfRange => 17,
            Refusal::InvalidReview => 20,
            Refusal::QueryNotReviewed => 21,
        }
    }

    fn offset(self) -> usize {
        match self {
            Refusal::Log(refusal) => refusal.offset(),
            Refusal::InvalidSpan
            | Refusal::ForeignQuery
            | Refusal::InvalidParts
            | Refusal::ThresholdOutOfRange
            | Refusal::InvalidReview
            | Refusal::QueryNotReviewed => 0,
        }
    }
}
