// Walks over the badges of a word, and over those of a set, the smallest first. A walk over one word takes fewer instructions than one over the set.
ghost use Rattle.std.specs.Iterator.{at_most};
ghost use Rattle.sets.specs.Sets.{size, TakesSmallest};
ghost use Rattle.sets.specs.Words.{word_bits};
ghost use Rattle.sets.specs.Members.{members, capacity};

use crate::{BadgeSet, WORD_BITS};

// The ones of a word, by their places: those that are still to come.
#[derive(Clone, Copy)]
pub struct Ones {
    pub word: u64,
}

impl Iterator for Ones {
    type Item = usize;

    ghost next_gives = { λ s r t. TakesSmallest word_bits s.word r t.word };

    ghost remaining = { λ s. at_most s.word };

    fn next(&mut self) -> Option<usize> {
        if self.word == 0 {
            return None;
        }
        let place = u64::trailing_zeros(self.word) as usize;
        self.word = self.word & (self.word - 1);
        Some(place)
    }
}

// The badges of a set: those that are still to come.
#[derive(Clone, Copy)]
pub struct Badges {
    pub left: BadgeSet,
}

impl Iterator for Badges {
    type Item = usize;

    ghost next_gives = { λ s r t. TakesSmallest capacity (members s.left) r (members t.left) };

    ghost remaining = { λ s. at_most (size (members s.left)) };

    fn next(&mut self) -> Option<usize> {
        let BadgeSet { low, high } = self.left;
        if low != 0 {
            self.left = BadgeSet {
                low: low & (low - 1),
                high,
            };
            return Some(u64::trailing_zeros(low) as usize);
        }
        if high != 0 {
            self.left = BadgeSet {
                low,
                high: high & (high - 1),
            };
            return Some(WORD_BITS + u64::trailing_zeros(high) as usize);
        }
        None
    }
}
