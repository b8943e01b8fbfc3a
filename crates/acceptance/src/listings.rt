// Document 02's limit of the listing, which counts and prints each circle as a group: a report above 65,536 bytes is refused by 9. The second
// implementation has no room for such reports. What the listing shows was worked out by hand from the rule of each log.
ghost use Rattle.std.specs.Prelude.{◌≤◌};
ghost use Rattle.acceptance.specs.declared.listings.TheConstants.{MOST_GROUPS};

use crate::answers::{Refused, answers_as};
use crate::cases::lent_words;
use crate::long_logs::{long_log, round};
use reference::{FILLER, Tally};

// The room that the listing program lends for a report.
const LISTING_ROOM: usize = 65536;

// The most groups of a report in that room.
const MOST_GROUPS: usize = 5040;

// The answer for a report of so many groups: a header, 13 bytes for each group, and an end.
fn report_of(groups: usize) -> Result<usize, Refused>
    requires { groups ≤ MOST_GROUPS }
{
    Ok(4 + 13 * groups + 6)
}

// Whether the lines from a place on, as many as 80 bytes hold, are these.
fn shows(got: Result<usize, groups::Refusal>, report: &[u8], from: usize, wanted: &[u8]) -> bool {
    let mut buffer = [FILLER; 80];
    let piece = text::lines(got, report, from, &mut buffer);
    (piece.bytes == wanted.len()) & buffer.starts_with(wanted)
}

// Whether the report of a log is answered as wanted, and its listing has so many lines after the first, and begins and ends with some lines.
fn lists(log: &[u8], wanted: Result<usize, Refused>, lines: usize, begin: &[u8], end: &[u8]) -> bool
    requires { lines ≤ MOST_GROUPS }
{
    let mut words = lent_words();
    let mut report = [FILLER; LISTING_ROOM];
    let got = text::prepare(log, &mut words, &mut report);
    answers_as(got, wanted)
        & shows(got, &report, 0, begin)
        & shows(got, &report, lines, end)
        & shows(got, &report, lines + 1, b"")
}

// Contacts of three ticks, in 92 rounds: the spans of one, two and three ticks from each of ticks 0 to 89 on have 8, 16 and 32 circles, of orders 3, 2
// and 1. That is 90 times 56 groups and the longest report that is listed, of 65,530 bytes. One contact more, and there is one group more. Contacts of one
// tick, in 96 rounds: 32 pairs in each tick, which are others in the next.
pub(crate) fn edge() -> Tally {
    let mut tally = Tally::default();
    tally.add_case(lists(
        &long_log(64, 96, 5888, |k| round(k, 2)),
        report_of(5040),
        5040,
        b"badges 64 ticks 96 groups 5040\norder 3 ticks 0 to 0 badges 0 1 2 3 4 5 6 7\n",
        b"order 1 ticks 89 to 91 badges 55 63\n",
    ));
    tally.add_case(lists(
        &long_log(64, 96, 5889, |k| round(k, 2)),
        Err(Refused {
            number: 9,
            offset: 0,
        }),
        0,
        b"refused 9 at 0\n",
        b"refused 9 at 0\n",
    ));
    tally.add_case(lists(
        &long_log(64, 96, 6144, |k| round(k, 0)),
        report_of(3072),
        3072,
        b"badges 64 ticks 96 groups 3072\norder 1 ticks 0 to 0 badges 0 1\n",
        b"order 1 ticks 95 to 95 badges 55 63\n",
    ));
    tally
}
