// Random cases, each from a random log. Calls on words get the words of its day.
use crate::cases;
use crate::cases::{day_of, lent_words};
use reference::{Day, Random, SEED, Size, Tally, judge, random_log};

// A query of two of n badges, or one, or now and then none.
fn draw_query(random: &mut Random, n: usize) -> u64 {
    let a = random.below(n);
    let b = random.below(n);
    if b % 4 == 0 {
        0
    } else {
        (1 << (a % 64)) | (1 << (b % 64))
    }
}

// Core numbers on a random span.
pub(crate) fn numbers(day: &Day, mut random: Random) -> bool {
    cases::numbers(day, random.span(day.ticks))
}

// A plan for a random query, of one part more than the first tick of a random span.
pub(crate) fn plans(day: &Day, mut random: Random) -> bool {
    let span = random.span(day.ticks);
    let query = draw_query(&mut random, day.badges);
    cases::plans(day, query, span.first + 1)
}

// Whether a case is right on the words of a log's day. What read answers is tried by a family of its own.
pub(crate) fn on_day<F: Fn(&Day, Random) -> bool>(log: &[u8], random: Random, case: F) -> bool
    requires { F.IsAlwaysCallable case }
{
    let mut words = lent_words();
    let _ = logs::read(log, &mut words);
    day_of(&words, judge(log)).is_ok_and(|day| case(&day, random))
}

// So many cases, each of a random log, and of what it draws itself: from a copy, so that every family has the same logs.
pub(crate) fn cases_of<F: Fn(&[u8], Random) -> bool>(case: F, cases: usize, most: Size) -> Tally
    requires { F.IsAlwaysCallable case }
{
    let mut tally = Tally::default();
    let mut random = Random { state: SEED };
    for _ in 0..cases {
        let log = random_log(&mut random, most);
        tally.add_case(case(log.as_slice(), random));
        random.below(0);
    }
    tally
}
