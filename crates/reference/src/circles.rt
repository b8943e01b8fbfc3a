// The circles of a core: its members, split by who is joined to whom through chains of the span's pairs between members.
use crate::bits::{has, with};
use crate::limits::MAX_BADGES;
use crate::peeling::Rows;

// A set of members of a core, with the members that are in contact with one of the set.
fn grown(rows: &Rows, core: u64, set: u64) -> u64 {
    rows.iter()
        .enumerate()
        .filter(|(v, row)| has(core, *v) && **row & set != 0)
        .fold(set, |more, (v, _)| with(more, v))
}

// The circle of badge u in a core: all are added who are in contact with one who is in it, as often as there are badges.
pub(crate) fn circle_of(rows: &Rows, core: u64, u: usize) -> u64 {
    (0..MAX_BADGES).fold(with(0, u), |circle, _| grown(rows, core, circle))
}
