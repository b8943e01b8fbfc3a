// A day's words, with its size.
ghost use Rattle.std.specs.Prelude.{◌≡◌, ◌≤◌, ◌<◌, length};
ghost use Rattle.sets.specs.Members.{members};
ghost use Rattle.records.specs.Limits.{max_badges, max_ticks, words_for};
ghost use Rattle.days.specs.Days.{neighbours};

use sets::{BadgeSet, set_at};

// Words that a log can be made of: n and T are no more than their limits, and there are words enough.
#[derive(Clone, Copy)]
pub(crate) struct Day<'a> {
    pub(crate) words: &'a [u64],
    pub(crate) badges: usize,
    pub(crate) ticks: usize,
    ghost few: { badges ≤ max_badges },
    ghost short: { ticks ≤ max_ticks },
    ghost enough: { words_for badges ticks ≤ length words.now },
}

impl Day<'_> {
    // Who is in contact with u in tick t.
    pub(crate) fn neighbours(&self, t: usize, u: usize) -> BadgeSet
        requires { (t < self.now.ticks) × (u < self.now.badges) }
        ensures { members result ≡ neighbours self.now.badges self.now.words.now t u }
    {
        set_at(self.words, t * self.badges + u)
    }
}
