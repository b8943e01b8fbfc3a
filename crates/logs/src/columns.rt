// The columns of a badge: for each larger one the ticks in which the two meet, as a word.
ghost use Rattle.std.specs.Prelude.{◌≡◌, ◌-◌, ◌≤◌, ◌<◌, min, replicate};
ghost use Rattle.sets.specs.Members.{capacity, members};
ghost use Rattle.sets.specs.Words.{word_bits, set_words, in_word};
ghost use Rattle.records.specs.Limits.{max_ticks};
ghost use Rattle.logs.specs.TickSets.{united, Columns};

use crate::day::Day;
use sets::{BadgeSet, CAPACITY, Ones, WORD_BITS};

// Adds bits to the column of each badge that a word has, as word i of a set.
fn unite(columns: &mut [u64; CAPACITY], word: u64, i: usize, bits: u64)
    requires { i < set_words }
    ensures { columns.new ≡ united columns.old (in_word i word) bits }
{
    for place in (Ones { word }) {
        columns[i * WORD_BITS + place] |= bits;
    }
}

// How many of the ticks from one on, as many as a word has bits, are ticks of the day.
fn window(from: usize, ticks: usize) -> usize
    ensures { result ≡ min word_bits (ticks - from) }
{
    ticks.saturating_sub(from).min(WORD_BITS)
}

// Gathers, into empty columns, for each badge v larger than u in which of the ticks from one on, as many as a word has bits, u and v meet: bit t is for
// tick from + t.
// The members of u's sets are walked, so a pair costs nothing in a tick in which it does not meet; word by word, which takes fewer instructions.
pub(crate) fn gather_columns(day: &Day<'_>, u: usize, from: usize, columns: &mut [u64; CAPACITY])
    requires { (u < day.now.badges) × (from ≤ max_ticks) × (columns.old ≡ replicate capacity 0) }
    ensures { Columns day.now.badges day.now.words.now u from (min word_bits (day.now.ticks - from)) columns.new }
{
    let smaller = BadgeSet::full(u + 1);
    let m = window(from, day.ticks);
    for t in 0..m {
        let larger = day.neighbours(from + t, u).difference(smaller);
        unite(columns, larger.word(0), 0, 1 << t);
        unite(columns, larger.word(1), 1, 1 << t);
    }
}
