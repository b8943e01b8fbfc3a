// A case of each call: the answer, and every word and byte that was lent, against the second implementation.
use crate::answers::{Refused, Wanted, answer_of, answers_as, bytes_of, reads_as};
use groups::Thresholds;
use reference::{
    Day, FILLER, Judgement, MAX_WORDS, PATTERN, ROOM, Span, best_plan, judge, listing, word_after,
};
use sets::BadgeSet;

// A buffer as it is before a call.
fn lent_bytes() -> [u8; ROOM] {
    [FILLER; ROOM]
}

// Words as they are before a call.
pub(crate) fn lent_words() -> [u64; MAX_WORDS] {
    [PATTERN; MAX_WORDS]
}

// Whether words are as a call leaves them that reads a log.
fn hold(words: &[u64], log: &[u8], judged: Judgement) -> bool {
    words
        .iter()
        .enumerate()
        .all(|(i, word)| *word == word_after(log, judged, i))
}

// Whether a buffer holds some bytes in front, and else what it held before.
fn holds(buffer: &[u8], wanted: &[u8]) -> bool {
    buffer
        .strip_prefix(wanted)
        .is_some_and(|rest| rest.iter().all(|byte| *byte == FILLER))
}

// The day of a log that words were read from.
pub(crate) fn day_of<'a>(words: &'a [u64], judged: Judgement) -> Result<Day<'a>, Refused> {
    let log = judged?;
    Ok(Day {
        words,
        badges: log.badges,
        ticks: log.ticks,
    })
}

// Read.
pub(crate) fn reads(log: &[u8]) -> bool {
    let mut words = lent_words();
    let got = logs::read(log, &mut words);
    let judged = judge(log);
    reads_as(got, judged) & hold(&words, log, judged)
}

// Tidy.
pub(crate) fn tidies(log: &[u8]) -> bool {
    let mut words = lent_words();
    let mut buffer = lent_bytes();
    let got = logs::tidy(log, &mut words, &mut buffer);
    let judged = judge(log);
    let wanted: Wanted = day_of(&words, judged).map(|day| reference::tidy_log(&day));
    answers_as(got, answer_of(&wanted))
        & hold(&words, log, judged)
        & holds(&buffer, bytes_of(&wanted))
}

// The text of a report that was prepared with an answer.
fn shows(got: Result<usize, groups::Refusal>, report: &[u8], wanted: &[u8]) -> bool {
    let mut buffer = lent_bytes();
    let piece = text::lines(got, report, 0, &mut buffer);
    (piece.bytes == wanted.len()) & holds(&buffer, wanted)
}

// The listing: the report that it begins with, and the whole text.
pub(crate) fn lists(log: &[u8]) -> bool {
    let mut words = lent_words();
    let mut buffer = lent_bytes();
    let got = text::prepare(log, &mut words, &mut buffer);
    let judged = judge(log);
    let wanted: Wanted = day_of(&words, judged).map(|day| reference::report(&day));
    let text = listing(judged, bytes_of(&wanted));
    answers_as(got, answer_of(&wanted))
        & hold(&words, log, judged)
        & holds(&buffer, bytes_of(&wanted))
        & shows(got, &buffer, text.as_str().as_bytes())
}

// Write.
pub(crate) fn writes(day: &Day) -> bool {
    let mut buffer = lent_bytes();
    let got = logs::write(day.words, day.badges, day.ticks, &mut buffer);
    let wanted = reference::tidy_log(day);
    answers_as(got, Ok(wanted.len())) & holds(&buffer, wanted.as_slice())
}

// Core numbers on a span. All badges are under review in this and the other calls on words.
pub(crate) fn numbers(day: &Day, span: Span) -> bool {
    let mut buffer = lent_bytes();
    let all = BadgeSet::full(day.badges);
    let got = groups::core_numbers(
        day.words,
        day.badges,
        day.ticks,
        all,
        span.first,
        span.last,
        &mut buffer,
    );
    let wanted = reference::core_numbers(day, span);
    answers_as(got, Ok(wanted.len())) & holds(&buffer, wanted.as_slice())
}

// The plain report.
pub(crate) fn reports(day: &Day) -> bool {
    let mut buffer = lent_bytes();
    let all = BadgeSet::full(day.badges);
    let plain = Thresholds::PLAIN;
    let got = groups::report(day.words, day.badges, day.ticks, all, plain, &mut buffer);
    let wanted = reference::report(day);
    answers_as(got, Ok(wanted.len())) & holds(&buffer, wanted.as_slice())
}

// Plan.
pub(crate) fn plans(day: &Day, query: u64, parts: usize) -> bool {
    let mut buffer = lent_bytes();
    let set = BadgeSet::from_word(query);
    let all = BadgeSet::full(day.badges);
    let got = groups::plan(
        day.words,
        day.badges,
        day.ticks,
        all,
        set,
        parts,
        &mut buffer,
    );
    let wanted = best_plan(day, query, parts);
    answers_as(got, Ok(wanted.len())) & holds(&buffer, wanted.as_slice())
}
