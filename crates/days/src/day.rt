// Filling the words of a day from an accepted log.
ghost use Rattle.std.specs.Prelude.{◌≡◌, ◌++◌, List, ◌+◌, ◌*◌, ◌<◌, ◌≤◌, length, drop, replicate};
ghost use Rattle.sets.specs.Sets.{union, only};
ghost use Rattle.sets.specs.Members.{capacity};
ghost use Rattle.sets.specs.Words.{places, set_at, put_set};
ghost use Rattle.records.specs.Limits.{max_badges, words_for};
ghost use Rattle.records.specs.Outcomes.{success};
ghost use Rattle.records.specs.Judging.{judge};
ghost use Rattle.days.specs.Days.{day_of};
ghost use Rattle.days.specs.Filling.{Accepts, Fitting, marked, Marks};

use records::{Record, decode, kind_of, size_of};
use series::Size;
use sets::{SET_WORDS, WORD_BITS};

// How many words are cleared at once. A compiler makes a call of a loop that clears words; for so few words the call takes several at once, and for many it
// may take a step for each byte.
const PART: usize = 128;

// Where the part ends that starts at a word: after as many as are cleared at once, or where the words end.
fn part_end(at: usize, words: usize) -> usize
    requires { at < words }
    ensures { (at < result) × (result ≤ words) }
{
    at + PART.min(words - at)
}

// All words are zero. (A `for` over `chunks_mut` would not do: of the words that it lends, a proof knows only how many they are.)
pub fn clear(words: &mut [u64])
    ensures { words.new ≡ replicate (length words.old) 0 }
{
    let mut at: usize = 0;
    while at < words.len() {
        let end = part_end(at, words.len());
        words[at..end].fill(0);
        at = end;
    }
}

// Puts badge u into the set at place i: one word of it has room for u.
fn mark(words: &mut [u64], i: usize, u: usize)
    requires { (i < places words.old) × (u < capacity) }
    ensures { words.new ≡ put_set words.old i (union (set_at words.old i) (only u)) }
{
    let at = i * SET_WORDS + u / WORD_BITS;
    words[at] = words[at] | (1 << (u % WORD_BITS));
}

// Badges a and b are in contact in tick t.
fn mark_pair(words: &mut [u64], n: usize, t: usize, a: usize, b: usize)
    requires { (n ≤ max_badges) × (a < n) × (b < n) × (t * n + n ≤ places words.old) }
    ensures { words.new ≡ marked n (marked n words.old t a b) t b a }
{
    let base = t * n;
    mark(words, base + a, b);
    mark(words, base + b, a);
}

// Badges a and b are in contact in the ticks from first to last.
fn mark_contact(words: &mut [u64], n: usize, a: u8, b: u8, first: u8, last: u8)
    requires { Fitting n (length words.old) (Record.Contact a b first last) }
    ensures { Marks n (Record.Contact a b first last) words.old words.new }
{
    let start = usize::from(first);
    let stop = usize::from(last) + 1;
    for t in start..stop {
        mark_pair(words, n, t, usize::from(a), usize::from(b));
    }
}

// Marks what a record covers: only a contact covers anything.
fn mark_record(words: &mut [u64], n: usize, record: Record)
    requires { Fitting n (length words.old) «record» }
    ensures { Marks n «record» words.old words.new }
{
    if let Record::Contact { a, b, first, last } = record {
        mark_contact(words, n, a, b, first, last);
    }
}

// Sets the first 2×n×T words to the day of an accepted log. (Records have different sizes, so a place goes through the bytes, and no `for` does.)
pub(crate) fn fill(log: &[u8], size: Size, words: &mut [u64])
    requires { Accepts log.now size.badges size.ticks × (words_for size.badges size.ticks ≤ length words.old) }
    ensures { (rs : List Record) → judge log.now ≡ success rs → words.new ≡ day_of rs ++ drop (words_for size.badges size.ticks) words.old }
{
    clear(&mut words[..size.ticks * size.badges * SET_WORDS]);
    let mut at: usize = 0;
    while at < log.len() {
        let Ok(record) = decode(&log[at..]) else {
            return;
        };
        mark_record(words, size.badges, record);
        at += size_of(kind_of(record));
    }
}
