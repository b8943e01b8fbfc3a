// The rows of a span: for each badge, those in contact with it in every tick.
ghost use Rattle.std.specs.Prelude.{◌≡◌, ◌+◌, ◌*◌, ◌≤◌, ◌<◌};
ghost use Rattle.spans.specs.Spans.{span_words};
ghost use Rattle.groups.specs.Steps.{NextTick, Narrows, SideOf, NarrowsSide, RowsTo, EmptyFrom};

use crate::day::{Day, Span};
use checks::copy_tick;
use sets::{ROW_WORDS, SET_WORDS, WORD_BITS};

// Narrows one word of the row of u, that at a place in the row, its side: of the neighbours of u that the word has, those stay that the tick has, too.
fn narrow_row(rows: &mut [u64], tick: &[u64], side: usize, u: usize)
    requires { SideOf rows.old tick.now side (u + 1) }
    ensures { NarrowsSide tick.now side u (u + 1) rows.old rows.new }
{
    let at = u * SET_WORDS + side;
    rows[at] = rows[at] & tick[at];
}

// Narrows one side of N rows, from that of u on: a loop of so few turns that the compiler leaves none of it.
fn narrow_some<const N: usize>(rows: &mut [u64], tick: &[u64], side: usize, u: usize)
    requires { SideOf rows.old tick.now side (u + N) }
    ensures { NarrowsSide tick.now side u (u + N) rows.old rows.new }
{
    for i in u..u + N {
        narrow_row(rows, tick, side, i);
    }
}

// Narrows one side of so many times eight rows, eight in a turn: a turn of one row would spend more on the loop than on the row.
fn narrow_by_eight(rows: &mut [u64], tick: &[u64], side: usize, eights: usize)
    requires { SideOf rows.old tick.now side (8 * eights) }
    ensures { NarrowsSide tick.now side 0 (8 * eights) rows.old rows.new }
{
    for i in 0..eights {
        narrow_some::<8>(rows, tick, side, 8 * i);
    }
}

// Narrows one side of the first n rows.
fn narrow_side(rows: &mut [u64], tick: &[u64], side: usize, n: usize)
    requires { SideOf rows.old tick.now side n }
    ensures { NarrowsSide tick.now side 0 n rows.old rows.new }
{
    let eights = n / 8;
    narrow_by_eight(rows, tick, side, eights);
    for u in 8 * eights..n {
        narrow_row(rows, tick, side, u);
    }
}

// Narrows the rows of a span by the tick after it: of the neighbours of each badge that the tick has, those stay that are in contact with it in that tick,
// too. The step gets these rows and this tick's words alone. Of rows that have no badge beyond their lower words, only these are looked at. The rows that it
// leaves are those of the longer span, whichever span of whichever words the rows are of; a caller has to show that there is one.
pub(crate) fn narrow(rows: &mut [u64], tick: &[u64])
    requires { NextTick rows.old tick.now }
    ensures { Narrows rows.old tick.now rows.new }
{
    let n = tick.len() / SET_WORDS;
    narrow_side(rows, tick, 0, n);
    if WORD_BITS < n {
        narrow_side(rows, tick, 1, n);
    }
}

// Narrows the rows of the span from a span's first tick to an earlier tick, tick by tick, to those of the whole span. The day is copied, since a copy of its own
// is not read again after each row that is written.
pub(crate) fn narrow_to(rows: &mut [u64], day: &Day, reached: usize, span: Span)
    requires { (span.last < day.now.ticks) × RowsTo day.now.badges day.now.words.now span.first span.last rows.old reached }
    ensures { rows.new ≡ span_words day.now.badges day.now.words.now span.first span.last }
{
    let lent = *day;
    for t in reached..span.last {
        narrow(rows, lent.tick(t + 1));
    }
}

// Puts the rows of the span of one tick into an array whose rows from n up are empty.
pub(crate) fn first_rows(rows: &mut [u64; ROW_WORDS], day: &Day, first: usize)
    requires { (first < day.now.ticks) × EmptyFrom day.now.badges rows.old }
    ensures { rows.new ≡ span_words day.now.badges day.now.words.now first first }
{
    copy_tick(rows, day.tick(first));
}

// Turns the rows of one span into those of another: where that is longer at its end alone, they are narrowed further.
pub(crate) fn follow(rows: &mut [u64; ROW_WORDS], day: &Day, at: Span, to: Span)
    requires { (to.last < day.now.ticks) × (rows.old ≡ span_words day.now.badges day.now.words.now at.first at.last) }
    ensures { rows.new ≡ span_words day.now.badges day.now.words.now to.first to.last }
{
    if at.first == to.first {
        if at.last <= to.last {
            narrow_to(&mut rows[..], day, at.last, to);
            return;
        }
    }
    first_rows(rows, day, to.first);
    narrow_to(&mut rows[..], day, to.first, to);
}

// The rows of a span: those of its first tick, narrowed by the others.
pub(crate) fn span_rows(day: &Day, span: Span) -> [u64; ROW_WORDS]
    requires { span.last < day.now.ticks }
    ensures { result ≡ span_words day.now.badges day.now.words.now span.first span.last }
{
    let mut rows = [0u64; ROW_WORDS];
    first_rows(&mut rows, day, span.first);
    narrow_to(&mut rows, day, span.first, span);
    rows
}
