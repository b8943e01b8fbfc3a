// The limits of document 01; that of badges is request Nine's.
ghost use Rattle.std.specs.Prelude.{◌≡◌};
ghost use Rattle.records.specs.Limits.{within_limits};

pub const MAX_BADGES: usize = 128;

pub const MAX_TICKS: usize = 96;

pub const MAX_CONTACTS: usize = 8000;

// A header, the contacts and an end.
pub const MAX_LOG_BYTES: usize = 10 + 6 * MAX_CONTACTS;

// Whether n and T are within their limits.
#[tactic(auto, using(crate::proofs::WithinLimits::within))]
pub fn within_limits(badges: usize, ticks: usize) -> bool
    ensures { result ≡ within_limits badges ticks }
{
    if badges < 1 {
        return false;
    }
    if MAX_BADGES < badges {
        return false;
    }
    if ticks < 1 {
        return false;
    }
    if MAX_TICKS < ticks {
        return false;
    }
    true
}
