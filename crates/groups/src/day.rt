// A lent day with the badges of it that are under review, and a span of ticks.
ghost use Rattle.std.specs.Prelude.{◌≡◌, ◌≤◌, ◌<◌};
ghost use Rattle.sets.specs.Members.{members};
ghost use Rattle.sets.specs.Words.{Words};
ghost use Rattle.days.specs.Days.{LentDay};
ghost use Rattle.spans.specs.Reviews.{Review};
ghost use Rattle.groups.specs.Steps.{tick_of};

use sets::{BadgeSet, SET_WORDS};

// The words of a day that were lent and have passed, its n and T, and the badges of it that are under review: all cores are cores among those.
#[derive(Clone, Copy)]
pub(crate) struct Day<'a> {
    pub(crate) words: &'a [u64],
    pub(crate) badges: usize,
    pub(crate) ticks: usize,
    pub(crate) review: BadgeSet,
    ghost fit: { Words words.now },
    ghost lent: { LentDay badges ticks words.now },
    ghost reviewed: { Review badges (members review) },
}

impl<'a> Day<'a> {
    // The words of a tick, a set for each badge.
    pub(crate) fn tick(&self, t: usize) -> &'a [u64]
        requires { t < self.now.ticks }
        ensures words { result.now ≡ tick_of self.now.badges self.now.words.now t }
        ensures fit { Words result.now }
    {
        let size = self.badges * SET_WORDS;
        let at = t * size;
        &self.words[at..at + size]
    }
}

// The first and the last tick of a span.
#[derive(Clone, Copy)]
pub(crate) struct Span {
    pub(crate) first: usize,
    pub(crate) last: usize,
    ghost rising: { first ≤ last },
}
