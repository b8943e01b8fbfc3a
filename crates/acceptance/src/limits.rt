// Document 01's cases that are not proved, and those of document 02's request Nine: 64 badges all in contact, and 128; n 129 or T 97; 8,000 contacts. What
// the second implementation gives is written by hand, and the product has to agree with it; above 64 badges the product is held against the bytes alone.
ghost use Rattle.std.specs.Prelude.{◌<◌};

use crate::answers::{Refused, answers_as, reads_as};
use crate::cases;
use crate::long_logs::{chain, long_log};
use groups::Thresholds;
use records::MAX_TICKS;
use reference::{
    Accepted, Day, FILLER, MAX_WORDS, Span, Tally, best_plan, core_numbers, judge, report,
};
use sets::{BadgeSet, CAPACITY, SET_WORDS, put_set};

// The words of the largest day.
const WIDE_WORDS: usize = SET_WORDS * CAPACITY * MAX_TICKS;

// Fills words with the sets of n badges that are all in contact in every tick: all of them but the badge itself. A `for` over
// the words in pairs is no plainer: a set is put at a position.
fn put_all_in_contact(words: &mut [u64], n: usize)
    requires { 0 < n }
{
    for i in 0..words.len() / SET_WORDS {
        put_set(words, i, BadgeSet::full(n).without(i % n));
    }
}

// Every order is 63: of each badge's core on all ticks, of the one group, and of a plan of one part.
pub(crate) fn order_63() -> Tally {
    let mut words = [0u64; MAX_WORDS];
    put_all_in_contact(&mut words, 64);
    let day = Day {
        words: &words,
        badges: 64,
        ticks: 96,
    };
    let all_ticks = Span { first: 0, last: 95 };
    let orders: &[u8] = &[63; 64];
    let group: &[u8] =
        b"RH\x40\x60GR\x3f\x00\x5f\xff\xff\xff\xff\xff\xff\xff\xffED\x01\x00\x00\x00";
    let plan: &[u8] =
        b"PH\x40\x60\x01\x01\x00\x00\x00\x00\x00\x00\x00PT\x3f\x00\x5f\xff\xff\xff\xff\xff\xff\xff\xffED\x01\x00\x00\x00";
    let mut tally = Tally::default();
    tally.add_case(
        cases::numbers(&day, all_ticks) & (core_numbers(&day, all_ticks).as_slice() == orders),
    );
    tally.add_case(cases::reports(&day) & (report(&day).as_slice() == group));
    tally.add_case(cases::plans(&day, 1, 1) & (best_plan(&day, 1, 1).as_slice() == plan));
    tally
}

// Whether a call answers so many bytes, and these.
fn gives(got: Result<usize, groups::Refusal>, buffer: &[u8], wanted: &[u8]) -> bool {
    answers_as(got, Ok(wanted.len())) & buffer.starts_with(wanted)
}

// Of 128 badges every order is 127, and the marks are those of wide sets.
pub(crate) fn order_127() -> Tally {
    let mut words = [0u64; WIDE_WORDS];
    put_all_in_contact(&mut words, 128);
    let words: &[u64] = &words;
    let all = BadgeSet::full(128);
    let mut buffer = [FILLER; 128];
    let mut tally = Tally::default();
    let got = groups::core_numbers(words, 128, 96, all, 0, 95, &mut buffer);
    tally.add_case(gives(got, &buffer, &[127; 128]));
    let got = groups::report(words, 128, 96, all, Thresholds::PLAIN, &mut buffer);
    let group =
        b"RW\x80\x60GW\x7f\x00\x5f\xff\xff\xff\xff\xff\xff\xff\xff\xff\xff\xff\xff\xff\xff\xff\xffED\x01\x00\x00\x00";
    tally.add_case(gives(got, &buffer, group));
    let last = BadgeSet::EMPTY.with(127);
    let got = groups::plan(words, 128, 96, all, last, 1, &mut buffer);
    let plan =
        b"PW\x80\x60\x01\x00\x00\x00\x00\x00\x00\x00\x00\x00\x00\x00\x00\x00\x00\x00\x80QW\x7f\x00\x5f\xff\xff\xff\xff\xff\xff\xff\xff\xff\xff\xff\xff\xff\xff\xff\xffED\x01\x00\x00\x00";
    tally.add_case(gives(got, &buffer, plan));
    tally
}

// T 96 with 128 badges: a log without contacts is read into 24,576 words, which are those of a day then, and written.
pub(crate) fn largest_day() -> Tally {
    let mut words = [u64::MAX; WIDE_WORDS];
    let log = b"BH\x80\x60ED\x00\x00\x00\x00";
    let accepted = Accepted {
        badges: 128,
        ticks: 96,
        contacts: 0,
    };
    let mut tally = Tally::default();
    tally.add_case(reads_as(logs::read(log, &mut words), Ok(accepted)));
    let mut buffer = [FILLER; 128];
    let got = logs::write(&words, 128, 96, &mut buffer);
    tally.add_case(answers_as(got, Ok(log.len())) & buffer.starts_with(log));
    tally
}

// Counts read and tidy of a log that is accepted or refused as wanted.
fn add_log(tally: &mut Tally, log: &[u8], wanted: Result<(), Refused>) {
    let judged = judge(log).map(|_| ()).map_err(Refused::from);
    tally.add_case((judged == wanted) & cases::reads(log));
    tally.add_case((judged == wanted) & cases::tidies(log));
}

// n 129 or T 97: 3.
pub(crate) fn header() -> Tally {
    let refused = Refused {
        number: 3,
        offset: 0,
    };
    let mut tally = Tally::default();
    add_log(&mut tally, b"BH\x40\x60ED\x00\x00\x00\x00", Ok(()));
    add_log(&mut tally, b"BH\x81\x60ED\x00\x00\x00\x00", Err(refused));
    add_log(&mut tally, b"BH\x40\x61ED\x00\x00\x00\x00", Err(refused));
    tally
}

// 8,000 contacts pass, and 8,001 get 5.
pub(crate) fn contacts() -> Tally {
    let refused = Refused {
        number: 5,
        offset: 48004,
    };
    let mut tally = Tally::default();
    add_log(&mut tally, &long_log(4, 3, 8000, chain), Ok(()));
    add_log(&mut tally, &long_log(4, 3, 8001, chain), Err(refused));
    tally
}
