// Sets of badges. A set goes in and comes back by value; no function has a precondition.

#![tactic(auto)]

mod walking;

ghost use Rattle.std.specs.Prelude.{◌≡◌, ◌-◌, ◌/◌, min, eqb, get_or};
ghost use Rattle.sets.specs.Sets.{has, is_sub, intersection, union, difference, symmetric_difference, only, full, size, smallest};
ghost use Rattle.sets.specs.Words.{word_bits, lower_words, to_words, set_at, put_set};
ghost use Rattle.sets.specs.Members.{set_of_two, members, capacity, insert};

pub use walking::{Badges, Ones};

// The bits of a word; how many words hold a set, in memory that is lent and in memory of one's own; how many badges there can be in a set; and the words of
// a row for each of them.
pub const WORD_BITS: usize = 64;

pub const SET_WORDS: usize = 2;

pub const CAPACITY: usize = SET_WORDS * WORD_BITS;

pub const ROW_WORDS: usize = CAPACITY * SET_WORDS;

// Some of the badges 0 to 127: badge u is in the set when bit u of the low word is 1, or bit u - 64 of the high word.
#[derive(Clone, Copy)]
pub struct BadgeSet {
    pub low: u64,
    pub high: u64,
}

// The badges below n of one word; for n above its bits, all of them.
fn full_word(n: usize) -> u64
    ensures { result ≡ full (min n word_bits) }
{
    if WORD_BITS <= n {
        return 0xffff_ffff_ffff_ffff;
    }
    (1 << n) - 1
}

impl BadgeSet {
    // The set with no badge.
    pub const EMPTY: BadgeSet = BadgeSet { low: 0, high: 0 };

    // The set that its lowest word alone holds.
    pub fn from_word(word: u64) -> BadgeSet
        ensures { members result ≡ word }
    {
        BadgeSet { low: word, high: 0 }
    }

    // The set that two words hold, lower badges first.
    pub fn from_words(low: u64, high: u64) -> BadgeSet
        ensures { members result ≡ set_of_two low high }
    {
        BadgeSet { low, high }
    }

    // Word i of those that hold the set, lower badges first; 0 where there is none. (No Option, since that is what it promises: past a set's words there is no
    // badge.)
    pub fn word(self, i: usize) -> u64
        ensures { result ≡ get_or (to_words lower_words (members self)) i 0 }
    {
        if i == 0 {
            return self.low;
        }
        if i == 1 {
            return self.high;
        }
        0
    }

    // All badges below n; for n above the capacity, all that a set can hold.
    pub fn full(n: usize) -> BadgeSet
        ensures { members result ≡ full (min n capacity) }
    {
        if n <= WORD_BITS {
            return BadgeSet {
                low: full_word(n),
                high: 0,
            };
        }
        BadgeSet {
            low: 0xffff_ffff_ffff_ffff,
            high: full_word(n - WORD_BITS),
        }
    }

    // Whether badge u is in the set; a badge that no set can hold is in none.
    pub fn has(self, u: usize) -> bool
        ensures { result ≡ has (members self) u }
    {
        (self.word(u / WORD_BITS) >> (u % WORD_BITS)) & 1 == 1
    }

    // The set with badge u; a badge that no set can hold changes nothing.
    pub fn with(self, u: usize) -> BadgeSet
        ensures { members result ≡ insert (members self) u }
    {
        if u < WORD_BITS {
            return BadgeSet {
                low: self.low | (1 << u),
                high: self.high,
            };
        }
        if u < CAPACITY {
            return BadgeSet {
                low: self.low,
                high: self.high | (1 << (u - WORD_BITS)),
            };
        }
        self
    }

    // The set without badge u; a badge that no set can hold is in none.
    pub fn without(self, u: usize) -> BadgeSet
        ensures { members result ≡ difference (members self) (only u) }
    {
        self.difference(BadgeSet::EMPTY.with(u))
    }

    // The badges in both sets.
    pub fn intersection(self, other: BadgeSet) -> BadgeSet
        ensures { members result ≡ intersection (members self) (members other) }
    {
        BadgeSet {
            low: self.low & other.low,
            high: self.high & other.high,
        }
    }

    // The badges in one of the sets or both.
    pub fn union(self, other: BadgeSet) -> BadgeSet
        ensures { members result ≡ union (members self) (members other) }
    {
        BadgeSet {
            low: self.low | other.low,
            high: self.high | other.high,
        }
    }

    // The badges that are not in the other set.
    pub fn difference(self, other: BadgeSet) -> BadgeSet
        ensures { members result ≡ difference (members self) (members other) }
    {
        BadgeSet {
            low: self.low - (self.low & other.low),
            high: self.high - (self.high & other.high),
        }
    }

    // The badges in one of the sets alone.
    pub fn symmetric_difference(self, other: BadgeSet) -> BadgeSet
        ensures { members result ≡ symmetric_difference (members self) (members other) }
    {
        BadgeSet {
            low: self.low ^ other.low,
            high: self.high ^ other.high,
        }
    }

    // The badges in the set, the smallest first.
    pub fn badges(self) -> Badges
        ensures { result.left ≡ self }
    {
        Badges { left: self }
    }

    // How many badges are in the set.
    pub fn size(self) -> usize
        ensures { result ≡ size (members self) }
    {
        u64::count_ones(self.low) as usize + u64::count_ones(self.high) as usize
    }

    // Whether no badge is in the set.
    pub fn is_empty(self) -> bool
        ensures { result ≡ eqb (members self) 0 }
    {
        self.low | self.high == 0
    }

    // Whether every badge of the set is in the other.
    pub fn is_subset(self, other: BadgeSet) -> bool
        ensures { result ≡ is_sub (members self) (members other) }
    {
        if self.low & other.low != self.low {
            return false;
        }
        self.high & other.high == self.high
    }

    // The smallest badge in the set; the capacity where there is none. (No Option, since that is what it promises; a walk by `badges` says where a set ends.)
    pub fn smallest(self) -> usize
        ensures { result ≡ smallest capacity (members self) }
    {
        if self.low == 0 {
            return WORD_BITS + u64::trailing_zeros(self.high) as usize;
        }
        u64::trailing_zeros(self.low) as usize
    }

    // The set without its smallest badge; the empty set stays empty.
    pub fn rest(self) -> BadgeSet
        ensures { members result ≡ difference (members self) (only (smallest capacity (members self))) }
    {
        if self.low == 0 {
            if self.high == 0 {
                return self;
            }
            return BadgeSet {
                low: 0,
                high: self.high & (self.high - 1),
            };
        }
        BadgeSet {
            low: self.low & (self.low - 1),
            high: self.high,
        }
    }
}

// The set at place i of sets that stand one after the other in words; the empty set where the words do not reach that far.
pub fn set_at(words: &[u64], i: usize) -> BadgeSet
    ensures { members result ≡ set_at words.now i }
{
    if i < words.len() / SET_WORDS {
        let at = i * SET_WORDS;
        return BadgeSet {
            low: words[at],
            high: words[at + 1],
        };
    }
    BadgeSet::EMPTY
}

// Puts a set at place i of sets that stand one after the other in words; changes nothing where the words do not reach that far.
pub fn put_set(words: &mut [u64], i: usize, s: BadgeSet)
    ensures { words.new ≡ put_set words.old i (members s) }
{
    if i < words.len() / SET_WORDS {
        let at = i * SET_WORDS;
        words[at] = s.low;
        words[at + 1] = s.high;
    }
}
