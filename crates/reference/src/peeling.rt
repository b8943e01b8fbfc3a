// The cores of a span. While some badge that is left has fewer than k of those left in contact with it, one such badge is dropped; those
// left then are the core of order k.
ghost use Rattle.std.specs.Prelude.{◌<◌};
ghost use Rattle.std.specs.Option.{IfSome};

use crate::bits::{all, has, size, with, without};
use crate::bytes::Bytes;
use crate::day::{Day, Span};
use crate::limits::MAX_BADGES;
use std::array;

// One row for each badge: the pairs in contact in every tick of a span. The rows past badge n are never looked at.
pub(crate) type Rows = [u64; MAX_BADGES];

// An order, and the members of its core.
#[derive(Clone, Copy)]
pub(crate) struct Core {
    pub(crate) order: usize,
    pub(crate) members: u64,
}

// The badges in contact with u in every tick of a span.
fn row(day: &Day, span: Span, u: usize) -> u64 {
    (span.first..=span.last).fold(all(day.badges), |set, t| set & day.contacts_of(t, u))
}

pub(crate) fn rows(day: &Day, span: Span) -> Rows {
    array::from_fn(|u| row(day, span, u))
}

// The first badge left whose degree is below k.
fn low_badge(rows: &Rows, left: u64, k: usize) -> Option<usize>
    ensures { IfSome result (λ u. u < 64) }
{
    rows.iter()
        .enumerate()
        .position(|(u, row)| has(left, u) && size(*row & left) < k)
}

// The core of order k among n badges, none where there is no such core. Each turn drops a badge, so that a `for` over as many turns as there are
// badges ends by itself, where a `while let` would need a measure.
pub(crate) fn core_of(rows: &Rows, n: usize, k: usize) -> u64 {
    let mut left = all(n);
    for _ in 0..MAX_BADGES {
        match low_badge(rows, left, k) {
            Some(u) => left = without(left, u),
            None => return left,
        }
    }
    left
}

// The core of the largest order that contains a query; order 0 and all n badges where there is none, as a plan shows them.
pub(crate) fn highest(rows: &Rows, n: usize, query: u64) -> Core {
    (1..MAX_BADGES)
        .map(|order| Core {
            order,
            members: core_of(rows, n, order),
        })
        .take_while(|core| core.members != 0 && core.members & query == query)
        .last()
        .unwrap_or(Core {
            order: 0,
            members: all(n),
        })
}

// The core numbers on a span of the day: a badge's is the largest order of a core that contains the badge.
pub fn core_numbers(day: &Day, span: Span) -> Bytes {
    let rows = rows(day, span);
    let mut numbers = Bytes::new();
    for u in 0..day.badges {
        numbers.put_number(highest(&rows, day.badges, with(0, u)).order);
    }
    numbers
}
