// A day in words. Word 2(t×n + u) is that of badge u in tick t: it has the badges in contact with u. The next word is for badges from 64 on, of
// which there are none here.
ghost use Rattle.std.specs.Prelude.{◌≤◌};

use crate::bits::has;
use crate::limits::{MAX_BADGES, MAX_TICKS};

// The ticks from one to another, with both.
#[derive(Clone, Copy, PartialEq)]
pub struct Span {
    pub first: usize,
    pub last: usize,
}

// How many sets a day of n badges and T ticks has: none beyond the limits.
pub(crate) fn sets_for(n: usize, ticks: usize) -> usize
    ensures { result ≤ 6144 }
{
    if n <= MAX_BADGES && ticks <= MAX_TICKS {
        ticks * n
    } else {
        0
    }
}

// The words of n badges in T ticks.
#[derive(Clone, Copy)]
pub struct Day<'a> {
    pub words: &'a [u64],
    pub badges: usize,
    pub ticks: usize,
}

impl<'a> Day<'a> {
    // The badges in contact with badge u in tick t; none where no word stands.
    pub(crate) fn contacts_of(&self, t: usize, u: usize) -> u64 {
        let set = sets_for(self.badges, t).saturating_add(u);
        self.words.get(set.saturating_mul(2)).copied().unwrap_or(0)
    }

    // Whether badges u and v are in contact in tick t.
    pub(crate) fn in_contact(&self, t: usize, u: usize, v: usize) -> bool {
        t < self.ticks && has(self.contacts_of(t, u), v)
    }
}
