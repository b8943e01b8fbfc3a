// Peeling: badges of low degree are dropped until none is left to drop.
ghost use Rattle.std.specs.Prelude.{◌≡◌, ◌<◌, length};
ghost use Rattle.sets.specs.Members.{members, capacity, row_words};
ghost use Rattle.sets.specs.Words.{set_words, words_of};
ghost use Rattle.cores.specs.Graphs.{degree};
ghost use Rattle.cores.specs.Rows.{graph, kept_rows, IsPeeled};
ghost use Rattle.cores.specs.Passes.{LookedAt, WordSeen, Passed, IsCoreKept};

use sets::{BadgeSet, CAPACITY, Ones, ROW_WORDS, SET_WORDS, WORD_BITS, put_set, set_at};

// What is left of a set while badges are dropped, and the least degree among those that were kept; the capacity where none was. (No Option, since `peel`
// promises that number for nobody.)
#[derive(Clone, Copy)]
pub(crate) struct Kept {
    pub(crate) members: BadgeSet,
    pub(crate) least: usize,
}

// The degree of badge u in a set: how many members are in its row. The row's upper word is read only where the set has badges there.
fn degree_in(rows: &[u64], u: usize, s: BadgeSet) -> usize
    requires { (length rows.now ≡ row_words) × (u < capacity) }
    ensures { result ≡ degree (graph rows.now) (members s) u }
{
    let at = u * SET_WORDS;
    let lower = u64::count_ones(rows[at] & s.word(0)) as usize;
    let upper = s.word(1);
    if upper == 0 {
        return lower;
    }
    lower + u64::count_ones(rows[at + 1] & upper) as usize
}

// Looks at badge u: it is dropped if it has fewer neighbours in what is left than the order asks; else the least degree takes its degree in.
fn look_at(rows: &[u64; ROW_WORDS], kept: Kept, order: usize, u: usize) -> Kept
    requires { u < capacity }
    ensures { LookedAt (graph rows.now) order u (members kept.members) kept.least (members result.members) result.least }
{
    let s = kept.members;
    let degree = degree_in(rows, u, s);
    if degree < order {
        return Kept {
            members: s.without(u),
            least: kept.least,
        };
    }
    if degree < kept.least {
        return Kept {
            members: s,
            least: degree,
        };
    }
    kept
}

// Looks at the members of a set that are in its word i, the smallest first: each that has too few neighbours in what is left then is dropped. (A walk over
// the whole set takes 1.3 to 1.55 times the instructions in core numbers: of a badge of one word it is known in which word it is dropped.)
fn look_at_word(rows: &[u64; ROW_WORDS], start: Kept, s: BadgeSet, i: usize, order: usize) -> Kept
    requires { i < set_words }
    ensures { WordSeen (graph rows.now) order (members s) i (members start.members) start.least (members result.members) result.least }
{
    let mut kept = start;
    let word = s.word(i);
    for place in (Ones { word }) {
        kept = look_at(rows, kept, order, i * WORD_BITS + place);
    }
    kept
}

// One pass over the members of a set, word by word: each that has too few neighbours in what is left then is dropped.
fn pass(rows: &[u64; ROW_WORDS], s: BadgeSet, order: usize) -> Kept
    ensures { Passed (graph rows.now) order (members s) (members result.members) result.least }
{
    let mut kept = Kept {
        members: s,
        least: CAPACITY,
    };
    for i in 0..SET_WORDS {
        kept = look_at_word(rows, kept, s, i, order);
    }
    kept
}

// The members of the core of an order among the badges of a base set, and their least degree. Each removal lowers others, so passes follow
// until one drops nobody; that one has seen the degrees in the core.
pub(crate) fn core(rows: &[u64; ROW_WORDS], base: BadgeSet, order: usize) -> Kept
    ensures { IsCoreKept (graph rows.now) (members base) order (members result.members) result.least }
{
    // No `for`, since nothing is counted: passes follow until one drops nobody.
    let mut left = base;
    loop {
        let next = pass(rows, left, order);
        let members = next.members;
        if left.is_subset(members) {
            return next;
        }
        left = members;
    }
}

// The rows of the members of a set, and an empty row for every other badge.
fn keep(rows: [u64; ROW_WORDS], kept: BadgeSet) -> [u64; ROW_WORDS]
    ensures { result ≡ words_of (kept_rows rows (members kept)) }
{
    let mut out = [0u64; ROW_WORDS];
    for u in kept.badges() {
        put_set(&mut out, u, set_at(&rows, u));
    }
    out
}

// Rows that were peeled: those of a core, the core's members, and their least degree; the capacity where there is no core.
#[derive(Clone, Copy)]
pub struct Peeled {
    pub rows: [u64; ROW_WORDS],
    pub members: BadgeSet,
    pub least: usize,
}

// The rows of the core of an order among the badges of a base set: each member's row, and an empty row for every other badge. With them come
// the core's members and their least degree.
pub fn peel(rows: [u64; ROW_WORDS], base: BadgeSet, order: usize) -> Peeled
    ensures { IsPeeled rows (members base) order result.rows (members result.members) result.least }
{
    let kept = core(&rows, base, order);
    let members = kept.members;
    Peeled {
        rows: keep(rows, members),
        members,
        least: kept.least,
    }
}
