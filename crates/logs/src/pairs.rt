// The runs of a day's pairs, appended to a log one after the other.
ghost use Rattle.std.specs.Prelude.{◌≤◌, ◌<◌};
ghost use Rattle.records.specs.Limits.{max_badges, max_ticks, max_contacts};
ghost use Rattle.days.specs.Days.{adjacent};
ghost use Rattle.logs.specs.Tidy.{runs_of, row_runs};
ghost use Rattle.logs.specs.TickSets.{has_tick, TicksBelow};
ghost use Rattle.logs.specs.Writing.{Appends};

use crate::columns::gather_columns;
use crate::day::Day;
use crate::encoding::append_contact;
use crate::ticks::TickSet;
use records::MAX_LOG_BYTES;
use sets::{CAPACITY, WORD_BITS};

// Appends the runs of u and v, which meet in the ticks of a set: from the first tick of a run to the one after its last, and on to the
// next run's first. The answer, here and below, is the count of contact records then: none where they are too many. (A `for` over the runs is no plainer:
// its iterator would be these two steps, with a contract of its own.)
fn append_pair(
    met: TickSet,
    ticks: usize,
    u: usize,
    v: usize,
    log: &mut [u8; MAX_LOG_BYTES],
    count: usize,
) -> Option<usize>
    requires { (count ≤ max_contacts) × (u < max_badges) × (v < max_badges) × (ticks ≤ max_ticks) × TicksBelow ticks met }
    ensures { Appends (runs_of ticks (has_tick met) u v) count result log.old log.new }
{
    let mut so_far = count;
    let mut first = met.first_in(0);
    while first < ticks {
        let end = met.first_outside(first);
        let last = end - 1;
        so_far = append_contact(log, so_far, u as u8, v as u8, first as u8, last as u8)?;
        first = met.first_in(end);
    }
    Some(so_far)
}

// Appends the runs of u and each larger badge. The ticks of all these pairs are gathered first, so a pair costs little more than its runs. (The low and the
// high words are two arrays, each of one gathering: to fill one array of `TickSet` would choose the word anew for each pair and tick.)
pub(crate) fn append_row(
    day: &Day<'_>,
    u: usize,
    log: &mut [u8; MAX_LOG_BYTES],
    count: usize,
) -> Option<usize>
    requires { (count ≤ max_contacts) × (u < day.now.badges) }
    ensures { Appends (row_runs day.now.badges day.now.ticks (adjacent day.now.badges day.now.words.now) u) count result log.old log.new }
{
    let mut lows = [0u64; CAPACITY];
    gather_columns(day, u, 0, &mut lows);
    let mut highs = [0u64; CAPACITY];
    gather_columns(day, u, WORD_BITS, &mut highs);
    let mut so_far = count;
    for v in u + 1..day.badges {
        let met = TickSet {
            low: lows[v],
            high: highs[v],
        };
        so_far = append_pair(met, day.ticks, u, v, log, so_far)?;
    }
    Some(so_far)
}
