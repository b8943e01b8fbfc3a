// Why a trace is refused: the refusals of the log part, and its own.
ghost use Rattle.std.specs.Prelude.{◌≡◌};
ghost use Rattle.trace.specs.declared.refusal.Refusal.TheVariants.{Log};
ghost use Rattle.trace.specs.Refusals.{number_of, offset_of};

use logs::Reason;

#[derive(Clone, Copy, Debug, PartialEq, Eq)]
pub enum Refusal {
    // One that the log part gives: 8 to 11.
    Log(logs::Refusal),
    // 22: an index of n or more, or a start tick of T or more.
    InvalidStart,
}

impl From<logs::Refusal> for Refusal {
    ghost from_gives = { λ refusal result. result ≡ Log refusal };

    fn from(refusal: logs::Refusal) -> Refusal {
        Self::Log(refusal)
    }
}

impl Reason for Refusal {
    ghost number = { number_of };

    ghost offset = { offset_of };

    fn number(self) -> u8 {
        match self {
            Refusal::Log(refusal) => refusal.number(),
            Refusal::InvalidStart => 22,
        }
    }

    fn offset(self) -> usize {
        match self {
            Refusal::Log(refusal) => refusal.offset(),
            Refusal::InvalidStart => 0,
        }
    }
}
