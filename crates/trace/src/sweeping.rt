// The sweep over the ticks of a day, from the start tick on, into the bytes of the trace.
ghost use Rattle.std.specs.Prelude.{◌≡◌, List, ℕ, ◌+◌, ◌≤◌, ◌<◌, length, replicate};
ghost use Rattle.sets.specs.Sets.{Sub, intersection, difference, full};
ghost use Rattle.sets.specs.Members.{capacity, members};
ghost use Rattle.sets.specs.Words.{in_word, places, set_at};
ghost use Rattle.chains.specs.Traces.{never};
ghost use Rattle.chains.specs.Sweep.{trace_bytes};
ghost use Rattle.chains.specs.Judging.{StartOfDay};
ghost use Rattle.trace.specs.Steps.{shown, reached_by, Turned, PassedTick};

use sets::{BadgeSet, Ones, SET_WORDS, WORD_BITS};

// In a trace: the tick of a badge that is never reached, and the source of a badge that has none.
const NONE: u8 = 255;

// Every byte says that nobody is reached.
fn clear(trace: &mut [u8])
    ensures { trace.new ≡ replicate (length trace.old) never }
{
    trace.fill(NONE);
}

// Those who pass on and are in contact with a badge, whose set is at a place. The place is known to be there: a test of it would take longer than the rest
// of a turn. Where nobody passes on from the second word, it is not read.
fn sources_at(words: &[u64], i: usize, passing: BadgeSet) -> BadgeSet
    requires { i < places words.now }
    ensures { members result ≡ intersection (set_at words.now i) (members passing) }
{
    let at = i * SET_WORDS;
    let low = words[at] & passing.word(0);
    if passing.word(1) == 0 {
        return BadgeSet::from_word(low);
    }
    BadgeSet::from_words(low, words[at + 1] & passing.word(1))
}

// The turn of a badge that was not reached before tick t, whose sets are those from a place on: where some who pass on are in contact with it it is reached,
// and gets the tick, and the smallest of these as its source. Gives the set of those reached, with it.
// (The words with the place and the tick are parameters of two functions alone: a struct of them would be made anew for each tick, and is no plainer.)
fn reach(
    trace: &mut [u8],
    words: &[u64],
    n: usize,
    base: usize,
    u: usize,
    t: u8,
    passing: BadgeSet,
    reached: BadgeSet,
) -> BadgeSet
    requires { (u < n) × (n ≤ capacity) × (base + n ≤ places words.now) × (length trace.old ≡ n + n) }
    ensures reached { members result ≡ reached_by (intersection (set_at words.now (base + u)) (members passing)) (members reached) u }
    ensures leaves { trace.new ≡ shown n (intersection (set_at words.now (base + u)) (members passing)) u t trace.old }
{
    let sources = sources_at(words, base + u, passing);
    if sources.is_empty() {
        return reached;
    }
    trace[u] = t;
    trace[n + u] = sources.smallest() as u8;
    reached.with(u)
}

// The turns of the badges of a word, as word i of a set, in tick t, whose sets are those from a place on. A walk over one word takes fewer instructions
// than one over the set.
fn pass_word(
    trace: &mut [u8],
    words: &[u64],
    n: usize,
    base: usize,
    t: u8,
    passing: BadgeSet,
    before: BadgeSet,
    word: u64,
    i: usize,
) -> BadgeSet
    requires { (n ≤ capacity) × (base + n ≤ places words.now) × (length trace.old ≡ n + n) × Sub (in_word i word) (full n) }
    ensures { (unseen : ℕ) (first : List ℕ) → Sub (in_word i word) unseen
        → Turned n (λ u. set_at words.now (base + u)) t (members passing) unseen (members before) first trace.old
        → Turned n (λ u. set_at words.now (base + u)) t (members passing) (difference unseen (in_word i word)) (members result) first trace.new }
{
    let mut reached = before;
    for place in (Ones { word }) {
        let u = i * WORD_BITS + place;
        reached = reach(trace, words, n, base, u, t, passing, reached);
    }
    reached
}

// Sweeps over tick t, whose sets are those from a place on: looks at each badge that was not reached before, and gives those that may pass on in the next
// tick.
fn pass_tick(
    trace: &mut [u8],
    words: &[u64],
    n: usize,
    base: usize,
    t: u8,
    passing: BadgeSet,
) -> BadgeSet
    requires { (n ≤ capacity) × (base + n ≤ places words.now) × (length trace.old ≡ n + n) }
    ensures { PassedTick n (λ u. set_at words.now (base + u)) t (members passing) (members result) trace.old trace.new }
{
    let unseen = BadgeSet::full(n).difference(passing);
    let low = unseen.word(0);
    let high = unseen.word(1);
    let lower = pass_word(trace, words, n, base, t, passing, passing, low, 0);
    pass_word(trace, words, n, base, t, passing, lower, high, 1)
}

// Puts the trace from the index and the start tick on into its bytes: in the start tick the index alone may pass on.
pub(crate) fn sweep(
    trace: &mut [u8],
    words: &[u64],
    n: usize,
    ticks: usize,
    index: usize,
    start: usize,
)
    requires { StartOfDay n ticks words.now index start × (length trace.old ≡ n + n) }
    ensures { trace.new ≡ trace_bytes n ticks words.now index start }
{
    clear(trace);
    trace[index] = start as u8;
    let mut passing = BadgeSet::EMPTY.with(index);
    for t in start..ticks {
        passing = pass_tick(trace, words, n, t * n, t as u8, passing);
    }
}
