// The calls for C, and for any language that can call C: each function is thin over one call, and leaves what that call leaves. A slice is a
// pointer and a length. `include/ward.h` has the prototypes.

#![tactic(auto)]

mod answers;

ghost use Rattle.std.specs.Prelude.{◌≡◌};
ghost use Rattle.sets.specs.Members.{set_of_two};
ghost use Rattle.days.specs.Calls.{read_of};
ghost use Rattle.receivers.specs.Joining.{join_of};
ghost use Rattle.logs.specs.Calls.{tidy_of, write_of};
ghost use Rattle.trace.specs.Calls.{trace_of};
ghost use Rattle.trace.specs.Tracing.{Traced};
ghost use Rattle.thresholds.specs.Ranges.{least_of};
ghost use Rattle.groups.specs.Calls.{core_numbers_of, report_of, plan_of};
ghost use Rattle.groups.specs.GroupReports.{Reported};
ghost use Rattle.groups.specs.ShiftPlans.{PlanShown};
ghost use Rattle.ward.specs.Answers.{read_answer, join_answer, written_answer};

use answers::{join_answer, read_answer, written_answer};
use groups::Thresholds;
use sets::BadgeSet;

// logs::read.
#[unsafe(no_mangle)]
pub extern "C" fn ward_read(log: &[u8], words: &mut [u64], answer: &mut [u64; 5])
    ensures answer { answer.new ≡ read_answer (read_of log.now words.old).answer }
    ensures words { words.new ≡ (read_of log.now words.old).words }
{
    let verdict = logs::read(log, words);
    *answer = read_answer(verdict);
}

// receivers::join.
#[unsafe(no_mangle)]
pub extern "C" fn ward_join(
    logs: &[u8],
    lengths: &[usize],
    quorum: usize,
    words: &mut [u64],
    work: &mut [u64],
    answer: &mut [u64; 5],
)
    ensures answer { answer.new ≡ join_answer (join_of logs.now lengths.now quorum words.old work.old).answer }
    ensures words { words.new ≡ (join_of logs.now lengths.now quorum words.old work.old).words }
    ensures work { work.new ≡ (join_of logs.now lengths.now quorum words.old work.old).work }
{
    let joined = receivers::join(logs, lengths, quorum, words, work);
    *answer = join_answer(joined);
}

// logs::tidy.
#[unsafe(no_mangle)]
pub extern "C" fn ward_tidy(log: &[u8], work: &mut [u64], out: &mut [u8], answer: &mut [u64; 5])
    ensures answer { answer.new ≡ written_answer (tidy_of log.now work.old out.old).answer }
    ensures words { work.new ≡ (tidy_of log.now work.old out.old).words }
    ensures leaves { out.new ≡ (tidy_of log.now work.old out.old).buffer }
{
    let written = logs::tidy(log, work, out);
    *answer = written_answer(written);
}

// logs::write.
#[unsafe(no_mangle)]
pub extern "C" fn ward_write(
    words: &[u64],
    badges: usize,
    ticks: usize,
    out: &mut [u8],
    answer: &mut [u64; 5],
)
    ensures answer { answer.new ≡ written_answer (write_of badges ticks words.now out.old).answer }
    ensures leaves { out.new ≡ (write_of badges ticks words.now out.old).buffer }
{
    let written = logs::write(words, badges, ticks, out);
    *answer = written_answer(written);
}

// trace::trace.
#[unsafe(no_mangle)]
pub extern "C" fn ward_trace(
    words: &[u64],
    badges: usize,
    ticks: usize,
    index: usize,
    start: usize,
    out: &mut [u8],
    answer: &mut [u64; 5],
)
    ensures answer { answer.new ≡ written_answer (trace_of badges ticks words.now index start out.old).answer }
    ensures leaves { out.new ≡ (trace_of badges ticks words.now index start out.old).buffer }
    ensures trace { Traced badges ticks words.now index start (trace_of badges ticks words.now index start out.old).answer out.new }
{
    let written = trace::trace(words, badges, ticks, index, start, out);
    *answer = written_answer(written);
}

// groups::core_numbers: the badges under review are a set in two numbers, bit u of the first for badge u, and of the second for badge 64 + u.
#[unsafe(no_mangle)]
pub extern "C" fn ward_core_numbers(
    words: &[u64],
    badges: usize,
    ticks: usize,
    review_low: u64,
    review_high: u64,
    first: usize,
    last: usize,
    out: &mut [u8],
    answer: &mut [u64; 5],
)
    ensures answer { answer.new ≡ written_answer (core_numbers_of badges ticks words.now (set_of_two review_low review_high) first last out.old).answer }
    ensures leaves { out.new ≡ (core_numbers_of badges ticks words.now (set_of_two review_low review_high) first last out.old).buffer }
{
    let reviewed = BadgeSet::from_words(review_low, review_high);
    let written = groups::core_numbers(words, badges, ticks, reviewed, first, last, out);
    *answer = written_answer(written);
}

// groups::report: the badges under review are a set, as before. Its thresholds are handed over as the least length in ticks, the least order and the least number of members.
#[unsafe(no_mangle)]
pub extern "C" fn ward_report(
    words: &[u64],
    badges: usize,
    ticks: usize,
    review_low: u64,
    review_high: u64,
    length: usize,
    order: usize,
    members: usize,
    out: &mut [u8],
    answer: &mut [u64; 5],
)
    ensures answer { answer.new ≡ written_answer (report_of badges ticks words.now (set_of_two review_low review_high) (least_of length order members) out.old).answer }
    ensures leaves { out.new ≡ (report_of badges ticks words.now (set_of_two review_low review_high) (least_of length order members) out.old).buffer }
    ensures groups { Reported badges ticks words.now (set_of_two review_low review_high) (least_of length order members) (report_of badges ticks words.now (set_of_two review_low review_high) (least_of length order members) out.old).answer out.new }
{
    let least = Thresholds {
        ticks: length,
        order,
        members,
    };
    let reviewed = BadgeSet::from_words(review_low, review_high);
    let written = groups::report(words, badges, ticks, reviewed, least, out);
    *answer = written_answer(written);
}

// groups::plan: the badges under review and the query are sets, each in two numbers.
#[unsafe(no_mangle)]
pub extern "C" fn ward_plan(
    words: &[u64],
    badges: usize,
    ticks: usize,
    review_low: u64,
    review_high: u64,
    query_low: u64,
    query_high: u64,
    parts: usize,
    out: &mut [u8],
    answer: &mut [u64; 5],
)
    ensures answer { answer.new ≡ written_answer (plan_of badges ticks words.now (set_of_two review_low review_high) (set_of_two query_low query_high) parts out.old).answer }
    ensures leaves { out.new ≡ (plan_of badges ticks words.now (set_of_two review_low review_high) (set_of_two query_low query_high) parts out.old).buffer }
    ensures shown { PlanShown badges ticks words.now (set_of_two review_low review_high) (set_of_two query_low query_high) parts (plan_of badges ticks words.now (set_of_two review_low review_high) (set_of_two query_low query_high) parts out.old).answer out.new }
{
    let reviewed = BadgeSet::from_words(review_low, review_high);
    let set = BadgeSet::from_words(query_low, query_high);
    let written = groups::plan(words, badges, ticks, reviewed, set, parts, out);
    *answer = written_answer(written);
}
