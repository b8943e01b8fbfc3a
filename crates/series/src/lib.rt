// Logs of several receivers that lie end to end, and how they are judged: definitions and laws, and the size that such logs have. `days` reads them.

#![tactic(auto)]

ghost use Rattle.std.specs.Prelude.{◌≡◌};

use records::Accepted;

// n and T, which all logs of a series have.
#[derive(Clone, Copy, Debug, PartialEq, Eq)]
pub struct Size {
    pub badges: usize,
    pub ticks: usize,
}

// The size of an accepted log.
impl From<Accepted> for Size {
    ghost from_gives = { λ accepted size. size ≡ record { badges = accepted.badges; ticks = accepted.ticks } };

    fn from(accepted: Accepted) -> Size {
        Size {
            badges: accepted.badges,
            ticks: accepted.ticks,
        }
    }
}
