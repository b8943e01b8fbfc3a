// Rows in an array, a set for each badge that a set can hold: the words of one tick copied there, and the badges that are in them.
ghost use Rattle.std.specs.Prelude.{◌≡◌, ◌++◌, ◌+◌, ◌≤◌, ◌<◌, length, take, drop};
ghost use Rattle.sets.specs.Members.{capacity, members};
ghost use Rattle.sets.specs.Words.{set_at, words_of};
ghost use Rattle.checks.specs.Arrays.{tick_over, in_use, union_of};
ghost use Rattle.checks.specs.Changes.{UnionOver};

use sets::{BadgeSet, CAPACITY, ROW_WORDS, SET_WORDS, WORD_BITS, set_at};

// Copies the first words of a tick over those of rows. (By index: the library's copy calls `memmove`, and whoever links the calls for C owes them only
// `memcpy` and `memset`.)
fn copy_words(rows: &mut [u64], tick: &[u64], count: usize)
    requires { (count ≤ length rows.old) × (count ≤ length tick.now) }
    ensures { rows.new ≡ take count tick.now ++ drop count rows.old }
{
    for i in 0..count {
        rows[i] = tick[i];
    }
}

// Copies the sets of one tick over the rows: as many as there are rows, and where it has fewer, the other rows stay.
pub fn copy_tick(rows: &mut [u64; ROW_WORDS], tick: &[u64])
    ensures { rows.new ≡ words_of (tick_over tick.now rows.old) }
{
    let count = SET_WORDS * CAPACITY.min(tick.len() / SET_WORDS);
    copy_words(rows, tick, count);
}

// The badges that are in one of two rows.
fn two_rows(rows: &[u64], u: usize) -> BadgeSet
    requires { u < capacity }
    ensures { UnionOver (set_at rows.now) u (u + 2) (members result) }
{
    set_at(rows, u).union(set_at(rows, u + 1))
}

// Every badge that is in one of the rows in use of n badges, eight rows in a turn: in so few turns of known places, the compiler leaves no test of a place.
// Of n badges that are in the first word, or in its lower half, no later row is looked at. Rows that are empty from n on have no other.
pub fn united(rows: &[u64; ROW_WORDS], n: usize) -> BadgeSet
    ensures { members result ≡ union_of (in_use n) rows.now }
{
    let mut all = BadgeSet::EMPTY;
    for i in 0..CAPACITY / 8 {
        if i == WORD_BITS / 16 {
            if n <= WORD_BITS / 2 {
                break;
            }
        }
        if i == WORD_BITS / 8 {
            if n <= WORD_BITS {
                break;
            }
        }
        let first = two_rows(rows, 8 * i).union(two_rows(rows, 8 * i + 2));
        let second = two_rows(rows, 8 * i + 4).union(two_rows(rows, 8 * i + 6));
        all = all.union(first.union(second));
    }
    all
}
