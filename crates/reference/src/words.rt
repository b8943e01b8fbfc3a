// The words that a call leaves which reads a log. The word that a log says is found slowly, by looking at each of its contacts.
ghost use Rattle.std.specs.Prelude.{◌≡◌, ◌≤◌, IfOk};
ghost use Rattle.reference.specs.Verdicts.{pattern};

use crate::bits::with;
use crate::bytes::{CONTACT_BYTES, HEADER_BYTES, rest_of};
use crate::day::sets_for;
use crate::judging::Judgement;

// What each word holds before a call.
pub const PATTERN: u64 = 0xa5c3_96f0_5a3c_690f;

// With whom a contact has badge u in tick t. The end is none.
fn partner(record: &[u8], t: usize, u: usize) -> Option<usize> {
    match record {
        [b'C', b'T', a, b, first, last] if usize::from(*first) <= t && t <= usize::from(*last) => {
            if usize::from(*a) == u {
                Some(usize::from(*b))
            } else if usize::from(*b) == u {
                Some(usize::from(*a))
            } else {
                None
            }
        }
        _ => None,
    }
}

// The badges with which a contact of a log has badge u in tick t.
fn partners(log: &[u8], t: usize, u: usize) -> u64 {
    rest_of(log, HEADER_BYTES)
        .chunks(CONTACT_BYTES)
        .filter_map(|record| partner(record, t, u))
        .fold(0, with)
}

// Word i as a call leaves it that reads a log: one of the day's, where the log is accepted, and else the pattern.
pub fn word_after(log: &[u8], judged: Judgement, i: usize) -> u64
    ensures refused { IfOk judged (λ log. log.badges ≡ 0) → result ≡ pattern }
    ensures after { 12288 ≤ i → result ≡ pattern }
{
    let Ok(day) = judged else {
        return PATTERN;
    };
    let set = i / 2;
    if day.badges == 0 || sets_for(day.badges, day.ticks) <= set {
        return PATTERN;
    }
    if i % 2 == 1 {
        return 0;
    }
    partners(log, set / day.badges, set % day.badges)
}
