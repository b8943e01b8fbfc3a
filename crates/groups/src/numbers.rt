// The call that gives the core numbers of a span.
ghost use Rattle.std.specs.Prelude.{◌≡◌};
ghost use Rattle.sets.specs.Members.{members};
ghost use Rattle.days.specs.Days.{LentDay};
ghost use Rattle.logs.specs.Buffers.{deliver};
ghost use Rattle.spans.specs.Reviews.{Review};
ghost use Rattle.spans.specs.Judging.{span_judged};
ghost use Rattle.groups.specs.Refusals.{written_outcome};
ghost use Rattle.groups.specs.Calls.{core_numbers_of};

use crate::day::{Day, Span};
use crate::refusal::Refusal;
use crate::reviewing::judge_review;
use crate::rows::span_rows;
use sets::BadgeSet;

// The core numbers of a span of a day, once its words and the badges under review have passed: judged by 12 and 9.
fn number_span(
    words: &[u64],
    badges: usize,
    ticks: usize,
    review: BadgeSet,
    first: usize,
    last: usize,
    buffer: &mut [u8],
) -> Result<usize, Refusal>
    requires { LentDay badges ticks words.now × Review badges (members review) }
    ensures answer { written_outcome result ≡ (deliver (span_judged badges ticks words.now (members review) first last) buffer.old).answer }
    ensures leaves { buffer.new ≡ (deliver (span_judged badges ticks words.now (members review) first last) buffer.old).buffer }
{
    if last < first {
        return Err(Refusal::InvalidSpan);
    }
    if ticks <= last {
        return Err(Refusal::InvalidSpan);
    }
    let day = Day {
        words,
        badges,
        ticks,
        review,
    };
    let rows = span_rows(&day, Span { first, last });
    let numbers = cores::core_numbers(rows, review);
    Ok(logs::deliver(&numbers[..badges], buffer)?)
}

// Puts the core number of each badge on the span from tick first to tick last, among the badges under review, into the buffer that is lent, one byte a
// badge, and answers the number of bytes. Other badges have core number 0. Refused by 10, 8, 11, 20, 12 and 9, in that order; a refused call changes
// no byte, and bytes after the answer are never touched.
pub fn core_numbers(
    words: &[u64],
    badges: usize,
    ticks: usize,
    review: BadgeSet,
    first: usize,
    last: usize,
    buffer: &mut [u8],
) -> Result<usize, Refusal>
    ensures answer { written_outcome result ≡ (core_numbers_of badges ticks words.now (members review) first last buffer.old).answer }
    ensures leaves { buffer.new ≡ (core_numbers_of badges ticks words.now (members review) first last buffer.old).buffer }
{
    judge_review(words, badges, ticks, review)?;
    number_span(words, badges, ticks, review, first, last, buffer)
}
