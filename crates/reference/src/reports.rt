// The groups of a day: the core of the largest order on each span, where no span that contains it has a core of that order, shown by its circles.
use crate::bits::has;
use crate::bytes::{Bytes, CORE_BYTES, GR, RH};
use crate::circles::circle_of;
use crate::day::{Day, Span};
use crate::limits::{MAX_BADGES, MAX_TICKS};
use crate::peeling::{Core, Rows, core_of, highest, rows};

// Whether some other span of the day that contains one has a core of some order.
fn surpassed(day: &Day, span: Span, order: usize) -> bool {
    (0..=span.first).any(|first| {
        (span.last..day.ticks.min(MAX_TICKS)).any(|last| {
            let longer = Span { first, last };
            longer != span && core_of(&rows(day, longer), day.badges, order) != 0
        })
    })
}

// Puts a core on a span into a report: a record for each of its circles, by smallest member.
fn put_circles(report: &mut Bytes, rows: &Rows, core: Core, span: Span) {
    let mut left = core.members;
    for u in 0..MAX_BADGES {
        if has(left, u) {
            let circle = circle_of(rows, core.members, u);
            report.put_core(GR, &[core.order, span.first, span.last], circle);
            left &= !circle;
        }
    }
}

// Puts the group on a span into a report, if there is one.
fn put_group(report: &mut Bytes, day: &Day, span: Span) {
    let rows = rows(day, span);
    let core = highest(&rows, day.badges, 0);
    if core.order != 0 && !surpassed(day, span, core.order) {
        put_circles(report, &rows, core, span);
    }
}

// Puts the groups on the spans that begin with a tick into a report.
fn put_groups_from(report: &mut Bytes, day: &Day, first: usize) {
    for last in first..day.ticks.min(MAX_TICKS) {
        put_group(report, day, Span { first, last });
    }
}

// The report of a day for which a report has room; no bytes for n 0, which is no day. A circle has 13 bytes and the header fewer, so that a thirteenth of
// the bytes is the number of circles.
pub fn report(day: &Day) -> Bytes {
    let mut report = Bytes::new();
    if day.badges == 0 {
        return report;
    }
    report.put_record(RH, &[day.badges, day.ticks]);
    for first in 0..day.ticks.min(MAX_TICKS) {
        put_groups_from(&mut report, day, first);
    }
    report.put_end(report.len() / CORE_BYTES);
    report
}
