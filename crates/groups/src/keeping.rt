// The maximal cores of a day that meet the thresholds are found, and kept.
ghost use Rattle.std.specs.Prelude.{◌≡◌, ◌∷◌, [], ◌≤◌, ◌<◌, ltb};
ghost use Rattle.sets.specs.Members.{members};
ghost use Rattle.sets.specs.Tables.{keep_if};
ghost use Rattle.spans.specs.KeptGroups.{kept};
ghost use Rattle.spans.specs.Encoding.{max_cores};
ghost use Rattle.groups.specs.Keeping.{kept_core, KeepsCores, line_list, circles_at, large_at, LineRoom, FindsCores};

use crate::day::Day;
use crate::kept::{Cores, Kept};
use crate::lines::{Found, LINE, find_line};
use sets::BadgeSet;
use thresholds::Thresholds;

// Keeps a core if it has members and meets the thresholds. A core that has not members enough has no circle that has.
fn keep_core(cores: &mut Cores, core: Kept, large: u8, least: Thresholds)
    requires { (cores.old.count < max_cores) × (core.first ≤ core.last) }
    ensures { KeepsCores (λ c. core.circles) (λ c. large) (kept least (keep_if (ltb 0 (members core.members)) (kept_core core ∷ []))) cores.old cores.new }
{
    let members = core.members;
    if members.is_empty() {
        return;
    }
    let ticks = usize::from(core.last - core.first) + 1;
    if least.met_by(ticks, usize::from(core.order), members) {
        cores.keep(core, large);
    }
}

// Keeps the maximal cores of the spans that start with a tick and meet the thresholds, by last tick. Where the order is not above the next, the span that is
// one tick longer at its end has a core of the same order.
fn keep_line(cores: &mut Cores, line: &[Found; LINE], first: usize, ticks: usize, least: Thresholds)
    requires { LineRoom ticks first cores.old }
    ensures { KeepsCores (circles_at line.now) (large_at line.now) (kept least (line_list line.now first ticks)) cores.old cores.new }
{
    for last in first..ticks {
        let found = line[last];
        if found.order <= line[last + 1].order {
            continue;
        }
        let core = Kept {
            order: found.order,
            first: first as u8,
            last: last as u8,
            circles: found.circles,
            members: found.members,
        };
        keep_core(cores, core, found.large, least);
    }
}

// Finds the maximal cores of a day that meet the thresholds, keeps them, and counts the records that they make.
pub(crate) fn find_cores(day: &Day, least: Thresholds, cores: &mut Cores)
    requires { (1 ≤ least.members) × (cores.old.count ≡ 0) }
    ensures { FindsCores day.now.badges day.now.ticks day.now.words.now (members day.now.review) least cores.new }
{
    let mut line = [Found::NONE; LINE];
    for first in 0..day.ticks {
        find_line(day, first, BadgeSet::EMPTY, least.members, &mut line);
        keep_line(cores, &line, first, day.ticks, least);
    }
}
