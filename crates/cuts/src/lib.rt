// Cutting the ticks of a day into runs, with the greatest sum of scores.
//
// `best_ends` fills a table of greatest sums, 96 columns wide: row c for c cuts, column t for first tick t. It fills the states that a cutting
// reaches: each run before t has a tick or more, and so has each of the c + 1 runs from t on. Then it walks from tick 0, and ends each run at the
// first tick that attains the greatest sum: so the list of ends is the first of those that attain it. Scores are in such a table, too: row first
// tick, column last tick. Where a row of scores has zeros alone, as most have, the greatest sum is that of the runs after the first one.

#![tactic(auto)]

ghost use Rattle.std.specs.Prelude.{◌≡◌, ◌++◌, suc, ◌+◌, ◌-◌, ◌<◌, ◌≤◌, max, length, replicate};
ghost use Rattle.cuts.specs.declared.TheConstants.{TICKS};
ghost use Rattle.cuts.specs.Sums.{first_greatest, best_ends, table_score, ends_of};
ghost use Rattle.cuts.specs.Steps.{NoneAbove, GreatestOf, RowMaxima, row_after, run_sum, SmallAfter, IsGreatestSum, Filled};

// The most ticks of a day.
const TICKS: usize = 96;

// The places of a table: a row for each tick, and as many columns.
const PLACES: usize = TICKS * TICKS;

// The runs from tick t that end at one of the ticks t to stop - 1, with the runs after them that row c of the table has. The two tables are no part of it, as
// one of them is written between its uses.
#[derive(Clone, Copy)]
struct Runs {
    c: usize,
    t: usize,
    stop: usize,
    ghost in_table: { (c < TICKS) × (t < stop) × (stop < TICKS) },
}

impl Runs {
    // The score of the run to tick e, added to what row c has for the runs after it.
    fn sum(self, scores: &[u8; PLACES], sums: &[u16; PLACES], e: usize) -> usize
        requires { e < self.stop }
        ensures { result ≡ run_sum scores.now sums.now self.c self.t e }
    {
        usize::from(scores[self.t * TICKS + e]) + usize::from(sums[self.c * TICKS + 1 + e])
    }

    // The first of the ends at which a run has the greatest sum.
    fn best_end(self, scores: &[u8; PLACES], sums: &[u16; PLACES]) -> usize
        ensures { result ≡ first_greatest (run_sum scores.now sums.now self.c self.t) self.t (self.stop - suc self.t) }
    {
        let mut end = self.t;
        let mut greatest = self.sum(scores, sums, self.t);
        // A chain of iterators is no plainer here: of equal sums the first is taken, where `max_by_key` takes the last.
        for e in self.t + 1..self.stop {
            let sum = self.sum(scores, sums, e);
            if greatest < sum {
                end = e;
                greatest = sum;
            }
        }
        end
    }

    // The greatest sum of a run and of those after it. It does not say at which end, so that the compiler can vectorise the loop. It takes columns of both
    // tables by their number: zipped slices of them cost a check more for each sum.
    fn greatest_sum(self, scores: &[u8; PLACES], sums: &[u16; PLACES]) -> u16
        requires { SmallAfter sums.now self.c self.t self.stop }
        ensures { IsGreatestSum scores.now sums.now self.c self.t self.stop result }
    {
        let row = self.t * TICKS;
        let after = self.c * TICKS + 1;
        let mut greatest = 0;
        for e in self.t..self.stop {
            greatest = greatest.max(u16::from(scores[row + e]) + sums[after + e]);
        }
        greatest
    }

    // The same sum, with less work where no run has a score above 0: there it is `rest`, the greatest sum of the runs after the first one.
    fn sum_from(self, scores: &[u8; PLACES], sums: &[u16; PLACES], maximum: u8, rest: u16) -> u16
        requires small { SmallAfter sums.now self.c self.t self.stop }
        requires row_known { NoneAbove (table_score scores.now self.t) self.t self.stop maximum × GreatestOf (row_after sums.now self.c) self.t self.stop rest }
        ensures { IsGreatestSum scores.now sums.now self.c self.t self.stop result }
    {
        if maximum == 0 {
            return rest;
        }
        self.greatest_sum(scores, sums)
    }
}

// The greatest score of the runs from t, up to tick ticks - 1.
fn row_maximum(scores: &[u8; PLACES], t: usize, ticks: usize) -> u8
    requires { (t < ticks) × (ticks ≤ TICKS) }
    ensures { GreatestOf (table_score scores.now t) t ticks result }
{
    let mut maximum = 0;
    for score in &scores[t * TICKS..][t..ticks] {
        maximum = maximum.max(*score);
    }
    maximum
}

// The greatest score of the runs from each first tick, up to tick ticks - 1.
fn row_maxima(scores: &[u8; PLACES], ticks: usize) -> [u8; TICKS]
    requires { ticks ≤ TICKS }
    ensures { RowMaxima scores.now ticks ticks result }
{
    let mut maxima = [0u8; TICKS];
    // An iterator over the places is no plainer here: a row is found by its number.
    for t in 0..ticks {
        maxima[t] = row_maximum(scores, t, ticks);
    }
    maxima
}

// Row 0: no cut, so that one run goes from t to the last tick. The other parts - 1 runs are before it, so t is not below parts - 1. Iterators over both
// tables are no plainer here: the scores are those of a column, by the number of the row.
fn fill_first(scores: &[u8; PLACES], sums: &mut [u16; PLACES], ticks: usize, parts: usize)
    requires { (1 ≤ parts) × (parts ≤ ticks) × (ticks ≤ TICKS) × (length sums.old ≡ PLACES) }
    ensures { Filled scores.now ticks parts 1 sums.new }
{
    let last = ticks - 1;
    for t in parts - 1..ticks {
        sums[t] = u16::from(scores[t * TICKS + last]);
    }
}

// Row c + 1 from row c: for each first tick t that leaves a tick or more to each of the parts - c - 2 runs before it, the greatest sum over the ends
// that leave c + 1 ticks or more. It goes from the last t down, so that `rest`, the greatest sum after an end, takes one comparison for each t.
fn fill_row(
    scores: &[u8; PLACES],
    maxima: &[u8; TICKS],
    sums: &mut [u16; PLACES],
    c: usize,
    ticks: usize,
    parts: usize,
)
    requires { (c + 2 < parts) × (parts ≤ ticks) × (ticks ≤ TICKS) × RowMaxima scores.now ticks ticks maxima.now × Filled scores.now ticks parts (c + 1) sums.old }
    ensures { Filled scores.now ticks parts (c + 2) sums.new }
{
    let stop = ticks - c - 1;
    let first = parts - c - 2;
    let mut rest = 0;
    for t in (first..stop).rev() {
        rest = rest.max(sums[c * TICKS + 1 + t]);
        sums[(c + 1) * TICKS + t] = Runs { c, t, stop }.sum_from(scores, sums, maxima[t], rest);
    }
}

// The ends of the first of the best cuttings, from the rows for fewer cuts, with zeros after them. An iterator over the ends is no plainer here: their numbers
// say how many cuts are left.
fn walk_ends(scores: &[u8; PLACES], sums: &[u16; PLACES], ticks: usize, parts: usize) -> [u8; TICKS]
    requires { (1 ≤ parts) × (parts ≤ ticks) × (ticks ≤ TICKS) × Filled scores.now ticks parts (parts - 1) sums.now }
    ensures { result ≡ best_ends (table_score scores.now) ticks parts ++ replicate (TICKS - parts) 0 }
{
    let mut ends = [0u8; TICKS];
    let mut t = 0;
    for i in 0..parts - 1 {
        let c = parts - i - 2;
        let stop = ticks - c - 1;
        let end = Runs { c, t, stop }.best_end(scores, sums);
        ends[i] = end as u8;
        t = end + 1;
    }
    ends[parts - 1] = (ticks - 1) as u8;
    ends
}

// The last ticks of the runs of the first of the best cuttings of the ticks 0 to ticks - 1 into parts runs, with zeros after them. Zeros alone
// where there is no such cutting or ticks is above 96.
pub fn best_ends(scores: &[u8; PLACES], ticks: usize, parts: usize) -> [u8; TICKS]
    ensures { result ≡ ends_of scores.now ticks parts }
{
    if parts < 1 || ticks < parts || TICKS < ticks {
        return [0; TICKS];
    }
    let maxima = row_maxima(scores, ticks);
    let mut sums = [0u16; PLACES];
    fill_first(scores, &mut sums, ticks, parts);
    for c in 1..parts - 1 {
        fill_row(scores, &maxima, &mut sums, c - 1, ticks, parts);
    }
    walk_ends(scores, &sums, ticks, parts)
}
