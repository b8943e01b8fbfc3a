// Sets of ticks, for the ticks in which a pair meets.
ghost use Rattle.std.specs.Prelude.{◌≡◌, ◌<◌};
ghost use Rattle.sets.specs.Bools.{isnt};
ghost use Rattle.sets.specs.Sets.{has};
ghost use Rattle.sets.specs.Words.{word_bits};
ghost use Rattle.logs.specs.TickSets.{has_tick, tick_capacity, First};

use sets::WORD_BITS;

// Some of the ticks 0 to 127: bit t of the low word says whether tick t is in the set, bit t of the high word whether tick 64 + t is.
// (Two words as a `BadgeSet` has, but of other things: nothing here asks for a set's members or puts two sets together, and no set of badges for the first
// one that is not in it.)
#[derive(Clone, Copy)]
pub(crate) struct TickSet {
    pub(crate) low: u64,
    pub(crate) high: u64,
}

// The first bit from one on that is 1; 64 where there is none. (No Option, here and below: the end of a set is where a run ends too.)
fn first_bit(word: u64, from: usize) -> usize
    requires { from < word_bits }
    ensures { First (has word) from word_bits result }
{
    u64::trailing_zeros(word - (word & ((1 << from) - 1))) as usize
}

impl TickSet {
    // The first tick from one on that is in the set; 128 where there is none.
    pub(crate) fn first_in(self, from: usize) -> usize
        requires { from < tick_capacity }
        ensures { First (has_tick self) from tick_capacity result }
    {
        if WORD_BITS <= from {
            return WORD_BITS + first_bit(self.high, from - WORD_BITS);
        }
        let low = first_bit(self.low, from);
        if low < WORD_BITS {
            return low;
        }
        WORD_BITS + first_bit(self.high, 0)
    }

    // The first tick from one on that is not in the set; 128 where there is none.
    pub(crate) fn first_outside(self, from: usize) -> usize
        requires { from < tick_capacity }
        ensures { First (λ t. isnt (has_tick self t)) from tick_capacity result }
    {
        let others = TickSet {
            low: !self.low,
            high: !self.high,
        };
        others.first_in(from)
    }
}
