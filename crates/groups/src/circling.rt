// The records of a core's circles, put into memory.
ghost use Rattle.std.specs.Prelude.{◌∷◌, []};
ghost use Rattle.sets.specs.Members.{members};
ghost use Rattle.cores.specs.Rows.{graph};
ghost use Rattle.circles.specs.Circles.{circles};
ghost use Rattle.groups.specs.Appending.{AppendsCores, large_records, CircleRoom};
ghost use Rattle.groups.specs.Keeping.{core_of};

use crate::encoding::{Shown, append_record};
use crate::form::Form;
use circles::circle_of;
use sets::{BadgeSet, ROW_WORDS};

// Appends the record of a circle of a core if it has members enough.
fn append_circle(
    buffer: &mut [u8],
    form: Form,
    count: usize,
    core: Shown,
    circle: BadgeSet,
    enough: usize,
) -> usize
    requires { CircleRoom form.width count enough (members circle ∷ []) buffer.old }
    ensures { AppendsCores form.group form.width 4 (large_records (core_of core) enough (members circle ∷ [])) count result buffer.old buffer.new }
{
    if circle.size() < enough {
        return count;
    }
    let shown = Shown {
        order: core.order,
        first: core.first,
        last: core.last,
        members: circle,
    };
    let mark = form.group;
    append_record(buffer, 4, count, mark, form.width, shown)
}

// Appends the records of the circles of a core that have members enough, by smallest member. The rows are those of the core's span.
pub(crate) fn append_circles(
    buffer: &mut [u8],
    form: Form,
    count: usize,
    rows: &[u64; ROW_WORDS],
    core: Shown,
    enough: usize,
) -> usize
    requires { CircleRoom form.width count enough (circles (graph rows.now) (members core.members)) buffer.old }
    ensures { AppendsCores form.group form.width 4 (large_records (core_of core) enough (circles (graph rows.now) (members core.members))) count result buffer.old buffer.new }
{
    let mut so_far = count;
    let mut left = core.members;
    // A `for` is no plainer here: there is no index, and each turn says what is left.
    while !left.is_empty() {
        let circle = circle_of(rows, left);
        so_far = append_circle(buffer, form, so_far, core, circle, enough);
        left = left.difference(circle);
    }
    so_far
}
