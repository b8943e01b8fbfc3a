// The scores of the spans that start with one tick, the members of their cores, and how many circles these have.
ghost use Rattle.std.specs.Prelude.{◌<◌};
ghost use Rattle.sets.specs.Members.{members};
ghost use Rattle.groups.specs.Lines.{CoreCounted, ScoresBefore, LineFound};

use crate::day::{Day, Span};
use crate::rows::{first_rows, narrow_to};
use checks::united;
use circles::count_circles;
use innermost::highest_core;
use records::MAX_TICKS;
use sets::{BadgeSet, CAPACITY, ROW_WORDS};

// What is found on a span: the score of a query, the members of the core of that order where it is above the score on the span that is one tick longer at
// its start, how many circles these have, and how many of them have members enough.
#[derive(Clone, Copy)]
pub(crate) struct Found {
    pub(crate) order: u8,
    pub(crate) circles: u8,
    pub(crate) large: u8,
    pub(crate) members: BadgeSet,
}

impl Found {
    pub(crate) const NONE: Found = Found {
        order: 0,
        circles: 0,
        large: 0,
        members: BadgeSet::EMPTY,
    };
}

// The spans that start with one tick, by last tick, and after the last of a day one of order 0.
pub(crate) const LINE: usize = MAX_TICKS + 1;

// How many circles a core has, and how many of them have members enough.
#[derive(Clone, Copy)]
struct Counts {
    circles: u8,
    large: u8,
}

// Counts the circles of a core from the rows that came back from peeling, and where no number of members is enough, not at all.
fn count_core(rows: &[u64; ROW_WORDS], core: BadgeSet, enough: usize) -> Counts
    ensures { CoreCounted rows.now (members core) enough result.circles result.large }
{
    if enough == 0 {
        return Counts {
            circles: 0,
            large: 0,
        };
    }
    let counted = count_circles(rows, core, enough);
    Counts {
        circles: counted.all as u8,
        large: counted.large as u8,
    }
}

// Finds the scores of a query on the spans that start with a tick, by last tick, and the members of the cores whose order is above the score
// on the span that is one tick longer at its start, with how many circles these have, and how many of them have members enough. The orders that are
// given are those of these longer spans: each is a lower bound, and the score on the span that is one tick shorter at its end is an upper bound, since
// scores fall as spans grow. Where the bounds meet, they are the score, and no row is looked at: rows are narrowed only where they are needed. A badge
// that is in no row is in no core, and one that is not under review is in none either. The rows go into peeling by value, and those that come back are
// what circles are found from and what the next span is narrowed from.
pub(crate) fn find_line(
    day: &Day,
    first: usize,
    query: BadgeSet,
    enough: usize,
    line: &mut [Found; LINE],
)
    requires { (first < day.now.ticks) × ScoresBefore day.now.badges day.now.ticks day.now.words.now (members day.now.review) (members query) first line.old }
    ensures { LineFound day.now.badges day.now.ticks day.now.words.now (members day.now.review) (members query) first enough line.old line.new }
{
    let mut rows = [0u64; ROW_WORDS];
    first_rows(&mut rows, day, first);
    let mut reached = first;
    let mut upper = CAPACITY as u8;
    for last in first..day.ticks {
        let lower = line[last].order;
        if upper <= lower {
            upper = lower;
            line[last].members = BadgeSet::EMPTY;
            continue;
        }
        narrow_to(&mut rows, day, reached, Span { first, last });
        reached = last;
        let met = united(&rows, day.badges);
        let base = met.intersection(day.review);
        let core = highest_core(rows, base, query, lower, upper);
        rows = core.rows;
        upper = core.order;
        let counts = count_core(&rows, core.members, enough);
        line[last] = Found {
            order: core.order,
            circles: counts.circles,
            large: counts.large,
            members: core.members,
        };
    }
}
