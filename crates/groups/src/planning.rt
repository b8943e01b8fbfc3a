// The call that plans a shift around a query.
ghost use Rattle.std.specs.Prelude.{◌≡◌, ◌∷◌, [], ◌+◌, ◌*◌, ◌≤◌, ◌<◌, length};
ghost use Rattle.sets.specs.Members.{members};
ghost use Rattle.days.specs.Days.{LentDay};
ghost use Rattle.logs.specs.Buffers.{deliver};
ghost use Rattle.spans.specs.Reviews.{Review};
ghost use Rattle.spans.specs.Plans.{score_on, members_on, part_on};
ghost use Rattle.spans.specs.Encoding.{core_bytes};
ghost use Rattle.spans.specs.Judging.{plan_judged};
ghost use Rattle.groups.specs.Refusals.{written_outcome};
ghost use Rattle.groups.specs.Appending.{AppendsCores};
ghost use Rattle.groups.specs.Scoring.{PlanParts, EncodesPlan};
ghost use Rattle.groups.specs.Calls.{plan_of};
ghost use Rattle.groups.specs.ShiftPlans.{PlanShown};

use crate::day::{Day, Span};
use crate::encoding::{Shown, append_record, put_core};
use crate::form::{Form, form_of, set_bytes};
use crate::refusal::Refusal;
use crate::reviewing::judge_review;
use crate::rows::span_rows;
use crate::scoring::fill_scores;
use logs::{Record, put_record};
use records::MAX_TICKS;
use sets::BadgeSet;

// The members shown of a part of a score: those of the core of this order, which contains the query, and at score 0 all badges under review. The order
// is known, so no other is tried.
fn part_members(day: &Day, query: BadgeSet, span: Span, score: u8) -> BadgeSet
    requires { (span.last < day.now.ticks) × (score ≡ score_on day.now.badges day.now.words.now (members day.now.review) (members query) span.first span.last) }
    ensures { members result ≡ members_on day.now.badges day.now.words.now (members day.now.review) score span.first span.last }
{
    let review = day.review;
    if score == 0 {
        return review;
    }
    let rows = span_rows(day, span);
    let core = innermost::highest(&rows, review, query, score - 1, score);
    core.members
}

// Appends the part of a run, whose score is known, and answers how many there are then.
fn append_part(
    day: &Day,
    query: BadgeSet,
    span: Span,
    score: u8,
    form: Form,
    buffer: &mut [u8],
    count: usize,
) -> usize
    requires { (span.last < day.now.ticks) × (score ≡ score_on day.now.badges day.now.words.now (members day.now.review) (members query) span.first span.last) × (form.width ≤ 16) × (core_bytes form.width + core_bytes form.width * count + core_bytes form.width ≤ length buffer.old) }
    ensures { AppendsCores form.part form.width (core_bytes form.width) (part_on day.now.badges day.now.words.now (members day.now.review) (members query) span.first span.last ∷ []) count result buffer.old buffer.new }
{
    let part = Shown {
        order: score,
        first: span.first as u8,
        last: span.last as u8,
        members: part_members(day, query, span, score),
    };
    let mark = form.part;
    append_record(buffer, 5 + form.width, count, mark, form.width, part)
}

// Encodes the plan of a day, cut at the given ends, in a buffer that holds it. The scores are those of all runs.
fn encode_plan(
    day: &Day,
    query: BadgeSet,
    parts: usize,
    ends: &[u8; MAX_TICKS],
    scores: &[u8; MAX_TICKS * MAX_TICKS],
    buffer: &mut [u8],
)
    requires { PlanParts day.now.badges day.now.ticks day.now.words.now (members day.now.review) (members query) parts ends.now scores.now buffer.old }
    ensures { EncodesPlan day.now.badges day.now.ticks day.now.words.now (members day.now.review) (members query) parts ends.now buffer.old buffer.new }
{
    let header = Shown {
        order: day.badges as u8,
        first: day.ticks as u8,
        last: parts as u8,
        members: query,
    };
    let form = form_of(day.badges);
    let mark = form.plan;
    put_core(buffer, 0, mark, form.width, header);
    let record = 5 + form.width;
    let mut first: usize = 0;
    let mut count: usize = 0;
    // An iterator is no plainer here: a part starts where the one before it ends.
    for i in 0..parts {
        let last = usize::from(ends[i]);
        let score = scores[first * MAX_TICKS + last];
        count = append_part(day, query, Span { first, last }, score, form, buffer, count);
        first = last + 1;
    }
    put_record(
        buffer,
        record + record * count,
        Record::End {
            count: count as u32,
        },
    );
}

// Plans a day whose words and badges under review have passed: judged by 13, 21, 14 and 9. The number of parts says how long the plan is, so it is made in
// the buffer that is lent.
fn plan_day(
    words: &[u64],
    badges: usize,
    ticks: usize,
    review: BadgeSet,
    query: BadgeSet,
    parts: usize,
    buffer: &mut [u8],
) -> Result<usize, Refusal>
    requires { LentDay badges ticks words.now × Review badges (members review) }
    ensures answer { written_outcome result ≡ (deliver (plan_judged badges ticks words.now (members review) (members query) parts) buffer.old).answer }
    ensures leaves { buffer.new ≡ (deliver (plan_judged badges ticks words.now (members review) (members query) parts) buffer.old).buffer }
{
    if !query.is_subset(BadgeSet::full(badges)) {
        return Err(Refusal::ForeignQuery);
    }
    if !query.is_subset(review) {
        return Err(Refusal::QueryNotReviewed);
    }
    if parts < 1 {
        return Err(Refusal::InvalidParts);
    }
    if ticks < parts {
        return Err(Refusal::InvalidParts);
    }
    let record = 5 + set_bytes(badges);
    let size = 6 + record + record * parts;
    if buffer.len() < size {
        return Err(Refusal::Log(logs::Refusal::BufferTooShort));
    }
    let mut scores = [0u8; MAX_TICKS * MAX_TICKS];
    let day = Day {
        words,
        badges,
        ticks,
        review,
    };
    fill_scores(&day, query, &mut scores);
    let ends = cuts::best_ends(&scores, ticks, parts);
    encode_plan(&day, query, parts, &ends, &scores, buffer);
    Ok(size)
}

// Plans a shift around a query, among the badges under review: cuts the day into parts runs with the greatest sum of scores, and of such cuttings the one
// whose list of last ticks comes first, number by number; puts the plan into the buffer that is lent, and answers the number of bytes. Refused by 10, 8,
// 11, 20, 13, 21, 14 and 9, in that order; a refused call changes no byte, and bytes after the answer are never touched.
pub fn plan(
    words: &[u64],
    badges: usize,
    ticks: usize,
    review: BadgeSet,
    query: BadgeSet,
    parts: usize,
    buffer: &mut [u8],
) -> Result<usize, Refusal>
    ensures answer { written_outcome result ≡ (plan_of badges ticks words.now (members review) (members query) parts buffer.old).answer }
    ensures leaves { buffer.new ≡ (plan_of badges ticks words.now (members review) (members query) parts buffer.old).buffer }
    ensures shown { PlanShown badges ticks words.now (members review) (members query) parts (written_outcome result) buffer.new }
{
    judge_review(words, badges, ticks, review)?;
    plan_day(words, badges, ticks, review, query, parts, buffer)
}
