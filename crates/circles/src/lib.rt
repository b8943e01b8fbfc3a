// The circles of one graph, given as one row a badge: the members of a set, split by who is joined to whom through chains of pairs between members.
//
// A caller walks all circles of a set as `count_circles` does: it takes the circle of the smallest member, and goes on with the other members until
// none is left. So each member's row is looked at once at most.

#![tactic(auto)]

ghost use Rattle.std.specs.Prelude.{◌≡◌, length};
ghost use Rattle.sets.specs.Members.{members};
ghost use Rattle.cores.specs.Rows.{graph};
ghost use Rattle.circles.specs.Circles.{first_circle, circles, at_least};

use sets::{BadgeSet, ROW_WORDS, SET_WORDS, set_at};

// How many circles a set has, and how many of them have members enough.
#[derive(Clone, Copy)]
pub struct Counted {
    pub all: usize,
    pub large: usize,
}

// The circle of the smallest member of a set; the empty set has none. Of the members that are reached, the row of one after the other is looked at,
// until none is on the frontier, of those whose row was not, or nobody is left to reach. (No `for`, here and below: the frontier grows while it is walked.)
fn circle_in_words(rows: &[u64; ROW_WORDS], s: BadgeSet) -> BadgeSet
    ensures { members result ≡ first_circle (graph rows.now) (members s) }
{
    let mut unreached = s.rest();
    let mut frontier = s.difference(unreached);
    loop {
        if unreached.is_empty() {
            return s;
        }
        if frontier.is_empty() {
            return s.difference(unreached);
        }
        let u = frontier.smallest();
        let met = set_at(rows, u).intersection(unreached);
        unreached = unreached.difference(met);
        frontier = frontier.rest().union(met);
    }
}

// The same walk where a set's lower word has all its members: it goes over that word, and over the lower words of the rows. One generic walk is no plainer
// here: words and sets would need a trait of their operations, with its laws.
fn circle_in_word(rows: &[u64; ROW_WORDS], word: u64) -> u64
    ensures { result ≡ first_circle (graph rows.now) word }
{
    if word == 0 {
        return word;
    }
    let mut unreached = word & (word - 1);
    let mut frontier = word - unreached;
    loop {
        if unreached == 0 {
            return word;
        }
        if frontier == 0 {
            return word - unreached;
        }
        let u = u64::trailing_zeros(frontier) as usize;
        let met = rows[u * SET_WORDS] & unreached;
        unreached -= met;
        frontier = (frontier & (frontier - 1)) | met;
    }
}

// The circle of the smallest member of a set; the empty set has none.
pub fn circle_of(rows: &[u64; ROW_WORDS], s: BadgeSet) -> BadgeSet
    ensures { members result ≡ first_circle (graph rows.now) (members s) }
{
    if s.word(1) == 0 {
        return BadgeSet::from_word(circle_in_word(rows, s.word(0)));
    }
    circle_in_words(rows, s)
}

// How many circles a set has, and how many of them have at least so many members. (No `for`: each turn says what is left for the next.)
pub fn count_circles(rows: &[u64; ROW_WORDS], s: BadgeSet, least: usize) -> Counted
    ensures all { result.all ≡ length (circles (graph rows.now) (members s)) }
    ensures large { result.large ≡ length (at_least least (circles (graph rows.now) (members s))) }
{
    let mut all: usize = 0;
    let mut large: usize = 0;
    let mut left = s;
    while !left.is_empty() {
        let circle = circle_of(rows, left);
        all += 1;
        large += usize::from(least <= circle.size());
        left = left.difference(circle);
    }
    Counted { all, large }
}
