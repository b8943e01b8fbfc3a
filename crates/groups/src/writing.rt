// A report, written from the cores that were found.
ghost use Rattle.std.specs.Prelude.{◌≡◌, ◌∷◌, [], ◌++◌, ◌<◌};
ghost use Rattle.sets.specs.Members.{members};
ghost use Rattle.spans.specs.Spans.{span_words};
ghost use Rattle.spans.specs.CircleRecords.{circles_of};
ghost use Rattle.groups.specs.Appending.{AppendsCores, large_records, CoreToSplit, ReportCores, EncodesReport};
ghost use Rattle.groups.specs.Keeping.{kept_core};

use crate::circling::append_circles;
use crate::day::{Day, Span};
use crate::encoding::{Shown, append_record};
use crate::form::{Form, form_of};
use crate::kept::{Cores, Kept};
use crate::rows::{first_rows, follow};
use logs::{Record, put, put_record};
use sets::ROW_WORDS;
use thresholds::Thresholds;

// How many records there are, and the span that rows are of.
#[derive(Clone, Copy)]
struct Walked {
    count: usize,
    at: Span,
}

// Appends the records of the circles of a core that have members enough. A core of one circle is its own record. For any other the rows of the span at hand
// become those of its span: along the line they are narrowed further, and a new line starts with those of its first tick.
fn append_core(
    day: &Day,
    rows: &mut [u64; ROW_WORDS],
    core: Kept,
    enough: usize,
    form: Form,
    buffer: &mut [u8],
    walked: Walked,
) -> Walked
    requires { (rows.old ≡ span_words day.now.badges day.now.words.now walked.at.first walked.at.last) × CoreToSplit day.now.badges day.now.ticks day.now.words.now enough (kept_core core) core.circles form.width walked.count buffer.old }
    ensures appended { AppendsCores form.group form.width 4 (large_records (kept_core core) enough (circles_of day.now.badges day.now.words.now (kept_core core))) walked.count result.count buffer.old buffer.new }
    ensures rows { rows.new ≡ span_words day.now.badges day.now.words.now result.at.first result.at.last }
{
    let shown = Shown {
        order: core.order,
        first: core.first,
        last: core.last,
        members: core.members,
    };
    if core.circles == 1 {
        let mark = form.group;
        return Walked {
            count: append_record(buffer, 4, walked.count, mark, form.width, shown),
            at: walked.at,
        };
    }
    let to = Span {
        first: usize::from(core.first),
        last: usize::from(core.last),
    };
    follow(rows, day, walked.at, to);
    Walked {
        count: append_circles(buffer, form, walked.count, rows, shown, enough),
        at: to,
    }
}

// The header of a report: its mark, n and T.
fn header_bytes(mark: [u8; 2], day: &Day) -> [u8; 4]
    requires { (day.now.badges < 256) × (day.now.ticks < 256) }
    ensures { result ≡ mark ++ (day.now.badges ∷ day.now.ticks ∷ []) }
{
    [mark[0], mark[1], day.badges as u8, day.ticks as u8]
}

// Writes the report of a day, from the cores that are kept, into a buffer that holds it.
pub(crate) fn write_report(day: &Day, least: Thresholds, cores: &Cores, buffer: &mut [u8])
    requires { ReportCores day.now.badges day.now.ticks day.now.words.now (members day.now.review) least cores.now buffer.old }
    ensures { EncodesReport day.now.badges day.now.ticks day.now.words.now (members day.now.review) least buffer.old buffer.new }
{
    let form = form_of(day.badges);
    let mark = form.report;
    put(buffer, 0, &header_bytes(mark, day));
    let mut rows = [0u64; ROW_WORDS];
    first_rows(&mut rows, day, 0);
    let mut walked = Walked {
        count: 0,
        at: Span { first: 0, last: 0 },
    };
    for stored in cores.all() {
        let core = stored.core();
        walked = append_core(day, &mut rows, core, least.members, form, buffer, walked);
    }
    put_record(
        buffer,
        4 + (5 + form.width) * walked.count,
        Record::End {
            count: walked.count as u32,
        },
    );
}
