// The tidy log of a day, found slowly: every pair is looked up in every tick.
use crate::bytes::{BH, Bytes, CONTACT_BYTES};
use crate::day::{Day, Span, sets_for};

// The run of contact of badges u and v that begins with a tick, if one does.
fn run_from(day: &Day, u: usize, v: usize, first: usize) -> Option<Span> {
    if 0 < first && day.in_contact(first - 1, u, v) {
        return None;
    }
    (first..day.ticks)
        .take_while(|t| day.in_contact(*t, u, v))
        .last()
        .map(|last| Span { first, last })
}

// Puts the runs of badges u and v into a log.
fn put_pair(log: &mut Bytes, day: &Day, u: usize, v: usize) {
    for first in 0..day.ticks {
        if let Some(run) = run_from(day, u, v, first) {
            log.put_contact(u, v, run);
        }
    }
}

// Puts the runs of badge u and each larger one into a log.
fn put_badge(log: &mut Bytes, day: &Day, u: usize) {
    for v in (u..day.badges).skip(1) {
        put_pair(log, day, u, v);
    }
}

// The tidy log of a day for which a log has room; no bytes for n 0, which is no day. A contact has six bytes and the header fewer, so that a sixth of
// the bytes is the number of contacts.
pub fn tidy_log(day: &Day) -> Bytes {
    let mut log = Bytes::new();
    if day.badges == 0 {
        return log;
    }
    log.put_record(BH, &[day.badges, day.ticks]);
    for u in 0..sets_for(day.badges, 1) {
        put_badge(&mut log, day, u);
    }
    log.put_end(log.len() / CONTACT_BYTES);
    log
}
