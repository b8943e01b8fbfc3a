// The check of words that every call on words begins with.
ghost use Rattle.std.specs.Prelude.{◌≡◌, ℕ, ◌+◌, ◌*◌, ◌≤◌, ◌<◌, length};
ghost use Rattle.sets.specs.Sets.{symmetric_difference};
ghost use Rattle.sets.specs.Words.{in_word, set_words, places, set_at, put_set};
ghost use Rattle.sets.specs.Members.{capacity, row_words};
ghost use Rattle.records.specs.Limits.{max_badges, words_for};
ghost use Rattle.days.specs.Days.{is_day};
ghost use Rattle.days.specs.Calls.{check_of};
ghost use Rattle.checks.specs.Answers.{checked_outcome};
ghost use Rattle.checks.specs.Scan.{Passed, PassedIf};

use crate::comparing::{change_at, changes};
use records::{Refusal, within_limits};
use sets::{BadgeSet, Ones, ROW_WORDS, SET_WORDS, WORD_BITS};

// Changes the badges of a word, as word i of a set, in the row of v: puts in those that are not there, and takes out those that are.
fn toggle(known: &mut [u64], v: usize, i: usize, word: u64)
    requires { (v < places known.old) × (i < set_words) }
    ensures { known.new ≡ put_set known.old v (symmetric_difference (set_at known.old v) (in_word i word)) }
{
    let at = v * SET_WORDS + i;
    known[at] = known[at] ^ word;
}

// Walks over what changes in the row of u in its second word, as the search below does in the first, and puts that word; whether no pair breaks the day.
fn walk_upper(tick: &[u64], known: &mut [u64], u: usize) -> bool
    requires { (u < capacity) × (u < places tick.now) × (length known.old ≡ row_words) }
    ensures { (n : ℕ) → n ≤ capacity → u < n → Passed n u tick.now known.old → PassedIf result n (u + 1) tick.now known.new }
{
    let word = change_at(tick, known, u).word(1);
    for place in (Ones { word }) {
        let v = WORD_BITS + place;
        if v <= u {
            return false;
        }
        toggle(known, v, u / WORD_BITS, 1 << (u % WORD_BITS));
    }
    toggle(known, u, 1, word);
    true
}

// Walks over the second words of all rows, which have no badge where one word holds n of them; whether no pair breaks the day.
fn walk_uppers(tick: &[u64], known: &mut [u64], n: usize) -> bool
    requires { (n ≤ capacity) × (n ≤ places tick.now) × Passed n 0 tick.now known.old }
    ensures { PassedIf result n n tick.now known.new }
{
    if n <= WORD_BITS {
        return true;
    }
    for u in 0..n {
        if !walk_upper(tick, known, u) {
            return false;
        }
    }
    true
}

// Whether the words are a day: the search goes tick by tick, badge by badge and bit by bit, and stops at the first pair that breaks it. The rows known are
// at first those of the tick before, in which no pair breaks the day; so it looks at the changes alone, and passes over a tick and a row without any. A
// badge from n up is found in all rows at once. It looks at each other pair once: where the row of u changes by a larger badge v, it changes u in the known
// row of v, too. So a change by a smaller badge is one that the row of that badge does not have, and a change by u itself is the row's own bit. It goes
// through the upper words of a tick first, and then through the lowest.
fn is_day(words: &[u64], n: usize, ticks: usize) -> bool
    requires { (n ≤ max_badges) × (words_for n ticks ≤ length words.now) }
    ensures { result ≡ is_day n ticks words.now }
{
    let mut good = true;
    let badges = BadgeSet::full(n);
    let mut known = [0u64; ROW_WORDS];
    'scan: for t in 0..ticks {
        let base = t * n * SET_WORDS;
        let tick = &words[base..base + n * SET_WORDS];
        let changed = changes(tick, &known, n);
        if changed.is_empty() {
            continue;
        }
        if !changed.is_subset(badges) {
            good = false;
            break 'scan;
        }
        if !walk_uppers(tick, &mut known, n) {
            good = false;
            break 'scan;
        }
        for u in 0..n {
            let word = change_at(tick, &known, u).word(0);
            if word == 0 {
                continue;
            }
            for v in (Ones { word }) {
                if v <= u {
                    good = false;
                    break 'scan;
                }
                toggle(&mut known, v, 0, 1 << u);
            }
            toggle(&mut known, u, 0, word);
        }
    }
    good
}

// Whether the words are a day of n badges and T ticks, judged by 10, 8 and 11 in that order. Words after the first 2×n×T are not read.
pub fn check_words(words: &[u64], badges: usize, ticks: usize) -> Result<(), Refusal>
    ensures { checked_outcome result ≡ check_of badges ticks words.now }
{
    if !within_limits(badges, ticks) {
        return Err(Refusal::SizeOutOfLimits);
    }
    if words.len() < ticks * badges * SET_WORDS {
        return Err(Refusal::TooFewWords);
    }
    if !is_day(words, badges, ticks) {
        return Err(Refusal::NotADay);
    }
    Ok(())
}
