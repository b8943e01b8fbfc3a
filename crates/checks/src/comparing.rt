// What changes from one tick to another: the badges that are in a row of one of the two and not in the same row of the other.
ghost use Rattle.std.specs.Prelude.{◌≡◌, ◌+◌, ◌*◌, ◌≤◌, ◌<◌};
ghost use Rattle.sets.specs.Words.{places};
ghost use Rattle.sets.specs.Members.{members};
ghost use Rattle.checks.specs.Changes.{change_at, UnionOver};

use sets::{BadgeSet, SET_WORDS};

// What changes in the row of u.
pub(crate) fn change_at(tick: &[u64], before: &[u64], u: usize) -> BadgeSet
    requires { (u < places tick.now) × (u < places before.now) }
    ensures { members result ≡ change_at tick.now before.now u }
{
    let at = u * SET_WORDS;
    BadgeSet::from_words(tick[at] ^ before[at], tick[at + 1] ^ before[at + 1])
}

// What changes in N rows, from the row of u on. The number is known to the compiler, which lays the rows out one after the other, without a loop.
fn some_changes<const N: usize>(tick: &[u64], before: &[u64], u: usize) -> BadgeSet
    requires { (u + N ≤ places tick.now) × (u + N ≤ places before.now) }
    ensures { UnionOver (change_at tick.now before.now) u (u + N) (members result) }
{
    let mut all = BadgeSet::EMPTY;
    for w in u..u + N {
        all = all.union(change_at(tick, before, w));
    }
    all
}

// What changes in so many times eight rows, eight in a turn. The first eight come before the loop: rows in an array are compared from its start on then,
// which lets the compiler lay it out so that both words of a set are read at once.
fn changes_by_eight(tick: &[u64], before: &[u64], eights: usize) -> BadgeSet
    requires { (8 * eights ≤ places tick.now) × (8 * eights ≤ places before.now) }
    ensures { UnionOver (change_at tick.now before.now) 0 (8 * eights) (members result) }
{
    if eights == 0 {
        return BadgeSet::EMPTY;
    }
    let mut all = some_changes::<8>(tick, before, 0);
    for i in 1..eights {
        all = all.union(some_changes::<8>(tick, before, 8 * i));
    }
    all
}

// Every badge that is in one of the first n rows of one tick, and not in the same row of the other.
pub(crate) fn changes(tick: &[u64], before: &[u64], n: usize) -> BadgeSet
    requires { (n ≤ places tick.now) × (n ≤ places before.now) }
    ensures { UnionOver (change_at tick.now before.now) 0 n (members result) }
{
    let eights = n / 8;
    let mut all = changes_by_eight(tick, before, eights);
    for u in 8 * eights..n {
        all = all.union(change_at(tick, before, u));
    }
    all
}
