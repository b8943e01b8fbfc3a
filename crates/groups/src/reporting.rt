// The call that reports the groups of a day.
ghost use Rattle.std.specs.Prelude.{◌≡◌, ◌≤◌};
ghost use Rattle.sets.specs.Members.{members};
ghost use Rattle.days.specs.Days.{LentDay};
ghost use Rattle.logs.specs.Buffers.{deliver};
ghost use Rattle.spans.specs.Reviews.{Review};
ghost use Rattle.spans.specs.Judging.{report_judged};
ghost use Rattle.groups.specs.Refusals.{written_outcome};
ghost use Rattle.groups.specs.Appending.{DeliversReport};
ghost use Rattle.groups.specs.Calls.{report_of};
ghost use Rattle.groups.specs.GroupReports.{Reported};

use crate::day::Day;
use crate::form::set_bytes;
use crate::keeping::find_cores;
use crate::kept::Cores;
use crate::refusal::Refusal;
use crate::reviewing::judge_review;
use crate::writing::write_report;
use sets::BadgeSet;
use thresholds::Thresholds;

// Puts a report into the buffer that is lent: judged by 9. The cores are found and kept, and the records of their circles counted, before the buffer is
// touched; then the records are written straight into it.
fn report_groups(day: &Day, least: Thresholds, buffer: &mut [u8]) -> Result<usize, Refusal>
    requires { 1 ≤ least.members }
    ensures { DeliversReport day.now.badges day.now.ticks day.now.words.now (members day.now.review) least (written_outcome result) buffer.old buffer.new }
{
    let mut cores = Cores::new();
    find_cores(day, least, &mut cores);
    let size = 10 + (5 + set_bytes(day.badges)) * cores.records();
    if buffer.len() < size {
        return Err(Refusal::Log(logs::Refusal::BufferTooShort));
    }
    write_report(day, least, &cores, buffer);
    Ok(size)
}

// Puts the report of a day whose words and badges under review have passed into the buffer that is lent: judged by 17 and 9.
fn report_day(
    words: &[u64],
    badges: usize,
    ticks: usize,
    review: BadgeSet,
    least: Thresholds,
    buffer: &mut [u8],
) -> Result<usize, Refusal>
    requires { LentDay badges ticks words.now × Review badges (members review) }
    ensures answer { written_outcome result ≡ (deliver (report_judged badges ticks words.now (members review) least) buffer.old).answer }
    ensures leaves { buffer.new ≡ (deliver (report_judged badges ticks words.now (members review) least) buffer.old).buffer }
{
    if !least.in_range() {
        return Err(Refusal::ThresholdOutOfRange);
    }
    let day = Day {
        words,
        badges,
        ticks,
        review,
    };
    report_groups(&day, least, buffer)
}

// Puts the report of a day's groups, among the badges under review, into the buffer that is lent, a record for each circle of a maximal core that meets
// the thresholds, and answers the number of bytes. Refused by 10, 8, 11, 20, 17 and 9, in that order; a refused call changes no byte, and bytes after the
// answer are never touched. The report is measured before the buffer is touched.
pub fn report(
    words: &[u64],
    badges: usize,
    ticks: usize,
    review: BadgeSet,
    least: Thresholds,
    buffer: &mut [u8],
) -> Result<usize, Refusal>
    ensures answer { written_outcome result ≡ (report_of badges ticks words.now (members review) least buffer.old).answer }
    ensures leaves { buffer.new ≡ (report_of badges ticks words.now (members review) least buffer.old).buffer }
    ensures groups { Reported badges ticks words.now (members review) least (written_outcome result) buffer.new }
{
    judge_review(words, badges, ticks, review)?;
    report_day(words, badges, ticks, review, least, buffer)
}
