// Plans, by trying every cutting, in the order of the lists of last ticks, compared number by number. A cutting is a set of ticks: a run ends with
// each tick that it has, and with the last one.
use crate::bits::has;
use crate::bytes::{Bytes, PH, PT};
use crate::day::{Day, Span};
use crate::peeling::{highest, rows};

// How many of a day's first ticks a cutting may have: as many as are before the last of the longest day that is planned here.
const CUT_TICKS: usize = 6;

// How many cuttings there are: a plan for each set of those ticks.
const CUTTINGS: u64 = 1 << CUT_TICKS;

// A plan up to some tick: its bytes, the tick with which the next part begins, how many parts there are, and the sum of their scores.
#[derive(Drop)]
struct Plan {
    bytes: Bytes,
    next: usize,
    parts: usize,
    sum: usize,
}

impl Plan {
    // Puts the part that ends with a tick. No count comes near 2^64, so that the sums need no bound of their own.
    fn put_part(&mut self, day: &Day, query: u64, last: usize) {
        let first = self.next;
        let span = Span { first, last };
        let core = highest(&rows(day, span), day.badges, query);
        self.bytes
            .put_core(PT, &[core.order, first, last], core.members);
        self.next = last.saturating_add(1);
        self.parts = self.parts.saturating_add(1);
        self.sum = self.sum.saturating_add(core.order);
    }
}

// Whether a cutting has tick t. Cuttings are numbered from 0 to 63, by which of the first six ticks they have not, tick 0 first: so of two with as
// many ticks the one whose list of ticks comes first has the smaller number.
fn has_tick(cutting: u64, t: usize) -> bool {
    t < CUT_TICKS && !has(cutting, CUT_TICKS - 1 - t)
}

// The plan of a cutting, without its end. Its header says some number of parts.
fn plan_of(day: &Day, query: u64, parts: usize, cutting: u64) -> Plan {
    let mut plan = Plan {
        bytes: Bytes::new(),
        next: 0,
        parts: 0,
        sum: 0,
    };
    plan.bytes
        .put_core(PH, &[day.badges, day.ticks, parts], query);
    for t in 0..day.ticks {
        if has_tick(cutting, t) || t + 1 == day.ticks {
            plan.put_part(day, query, t);
        }
    }
    plan
}

// The plan of so many parts with the greatest sum, for at most seven ticks: every set of the first six is tried. Of equal sums it is the first.
pub fn best_plan(day: &Day, query: u64, parts: usize) -> Bytes {
    let best = (0..CUTTINGS)
        .map(|cutting| plan_of(day, query, parts, cutting))
        .filter(|plan| 0 < parts && plan.parts == parts)
        .reduce(|best, plan| if best.sum < plan.sum { plan } else { best });
    match best {
        Some(mut plan) => {
            plan.bytes.put_end(parts);
            plan.bytes
        }
        None => Bytes::new(),
    }
}
