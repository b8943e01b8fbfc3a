// The scores of all runs of a day.
ghost use Rattle.std.specs.Prelude.{◌≡◌, ◌*◌, length};
ghost use Rattle.sets.specs.Members.{members};
ghost use Rattle.records.specs.Limits.{max_ticks};
ghost use Rattle.groups.specs.Scoring.{LinePlaces, LinePut, Scores};

use crate::day::Day;
use crate::lines::{Found, LINE, find_line};
use records::MAX_TICKS;
use sets::BadgeSet;

// Puts the scores of the runs that start with a tick into its row of a table.
fn put_line(line: &[Found; LINE], first: usize, ticks: usize, scores: &mut [u8])
    requires { LinePlaces ticks first scores.old }
    ensures { LinePut ticks first line.now scores.old scores.new }
{
    // No `copy_from_slice` here: the scores stand in the entries of the line, one in each.
    for last in first..ticks {
        scores[first * MAX_TICKS + last] = line[last].order;
    }
}

// Fills a table with the score of every run of a day: a row for each first tick, a column for each last tick. A plan's cores are not split, so no circle
// is counted.
pub(crate) fn fill_scores(day: &Day, query: BadgeSet, scores: &mut [u8])
    requires { length scores.old ≡ max_ticks * max_ticks }
    ensures { Scores day.now.badges day.now.ticks day.now.words.now (members day.now.review) (members query) day.now.ticks scores.new }
{
    let mut line = [Found::NONE; LINE];
    for first in 0..day.ticks {
        find_line(day, first, query, 0, &mut line);
        put_line(&line, first, day.ticks, scores);
    }
}
