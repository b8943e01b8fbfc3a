// In-degrees in a set of badges: those of the badges of one word of a set are in the lanes of some planes. For symmetric rows they are the degrees.
//
// Rows are added word by word: the words of the rows of the badges of one word, of which the first is `from`, and of these words those of one `side`, that is
// of one place in each row. So lane v of the planes of a side counts badge v of that word of a set. Where nobody is left among the badges of the upper word,
// their planes are not worked on, and nobody looks at them: so a day of few badges costs what it would cost with sets of one word.
ghost use Rattle.std.specs.Prelude.{◌≡◌, ◌+◌, ◌≤◌, ◌<◌};
ghost use Rattle.sets.specs.Members.{members, capacity};
ghost use Rattle.sets.specs.Words.{word_bits, set_words};
ghost use Rattle.sets.specs.Sets.{full};
ghost use Rattle.planes.specs.Lanes.{planes_of, half};
ghost use Rattle.cores.specs.Rows.{graph};
ghost use Rattle.innermost.specs.Columns.{in_degree};
ghost use Rattle.innermost.specs.Counting.{row_word, TakesRow, AddsSome, AddsTo, AddsSide, CountingSide};
ghost use Rattle.innermost.specs.Degrees.{number_of, Counting, Raised, Reached, LargestOf};

use planes::Planes;
use sets::{BadgeSet, ROW_WORDS, SET_WORDS, WORD_BITS};

// The in-degrees of the badges of a set's lower word in the lanes of its planes, and those of the badges of the upper word.
#[derive(Clone, Copy)]
pub(crate) struct Degrees {
    pub(crate) low: Planes,
    pub(crate) high: Planes,
}

// A word of the row of one of a word's badges, and its other badges.
#[derive(Clone, Copy)]
struct Taken {
    row: u64,
    rest: u64,
}

// Sums in lanes, and the badges of a word whose rows are not in them yet.
#[derive(Clone, Copy)]
struct Summed {
    planes: Planes,
    unseen: u64,
}

// The rows of the badges of one word, of which the first is `from`, and of each of these rows the word at one place, its side.
#[derive(Clone, Copy)]
struct SideRows<'a> {
    rows: &'a [u64; ROW_WORDS],
    from: usize,
    side: usize,
    ghost in_rows: { (from + word_bits ≤ capacity) × (side < set_words) },
}

impl SideRows<'_> {
    // The word of badge u of these.
    fn word(self, u: usize) -> u64
        requires { u < word_bits }
        ensures { result ≡ row_word self.entry.rows.now self.entry.from self.entry.side u }
    {
        self.rows[SET_WORDS * (self.from + u) + self.side]
    }

    // Takes the word of the smallest badge of a word; an empty one where it has none. (No Option: eight words are added without a test of each.)
    fn take(self, word: u64) -> Taken
        ensures { TakesRow (row_word self.entry.rows.now self.entry.from self.entry.side) word result.row result.rest }
    {
        if word == 0 {
            return Taken { row: 0, rest: 0 };
        }
        Taken {
            row: self.word(u64::trailing_zeros(word) as usize),
            rest: word & (word - 1),
        }
    }

    // Adds the rows of eight badges of a word, or of all where there are fewer.
    fn add_eight(self, p: Planes, word: u64) -> Summed
        ensures { AddsSome (row_word self.entry.rows.now self.entry.from self.entry.side) word result.unseen (planes_of p) (planes_of result.planes) }
    {
        let a = self.take(word);
        let b = self.take(a.rest);
        let c = self.take(b.rest);
        let d = self.take(c.rest);
        let e = self.take(d.rest);
        let f = self.take(e.rest);
        let g = self.take(f.rest);
        let h = self.take(g.rest);
        let unseen = h.rest;
        Summed {
            planes: planes::add_eight(p, a.row, b.row, c.row, d.row, e.row, f.row, g.row, h.row),
            unseen,
        }
    }

    // Adds the rows of all badges of a word.
    fn add_all(self, p: Planes) -> Planes
        ensures { AddsTo (in_degree (row_word self.entry.rows.now self.entry.from self.entry.side) (full word_bits)) (planes_of p) (planes_of result) }
    {
        let mut out = p;
        for i in 0..WORD_BITS / 8 {
            let u = 8 * i;
            out = planes::add_eight(
                out,
                self.word(u),
                self.word(u + 1),
                self.word(u + 2),
                self.word(u + 3),
                self.word(u + 4),
                self.word(u + 5),
                self.word(u + 6),
                self.word(u + 7),
            );
        }
        out
    }

    // Adds the rows of the badges of a word, eight at a time.
    fn add_by_eight(self, p: Planes, word: u64) -> Planes
        ensures { AddsTo (in_degree (row_word self.entry.rows.now self.entry.from self.entry.side) word) (planes_of p) (planes_of result) }
    {
        let mut sums = Summed {
            planes: p,
            unseen: word,
        };
        // A `for` over numbers is no plainer here: badges are taken until none is unseen.
        while sums.unseen != 0 {
            sums = self.add_eight(sums.planes, sums.unseen);
        }
        sums.planes
    }

    // Adds the rows of the badges of a word.
    fn add(self, p: Planes, word: u64) -> Planes
        ensures { AddsTo (in_degree (row_word self.entry.rows.now self.entry.from self.entry.side) word) (planes_of p) (planes_of result) }
    {
        if word == planes::EVERY {
            return self.add_all(p);
        }
        self.add_by_eight(p, word)
    }

    // Counts the badges of a word no longer: each of their rows is added, two at a time, since the in-degree of each badge in it falls by 1.
    fn discount(self, p: Planes, word: u64) -> Planes
        ensures { AddsTo (in_degree (row_word self.entry.rows.now self.entry.from self.entry.side) word) (planes_of p) (planes_of result) }
    {
        let mut out = p;
        let mut unseen = word;
        // A `for` over numbers is no plainer here: badges are taken until none is unseen.
        while unseen != 0 {
            let a = self.take(unseen);
            let b = self.take(a.rest);
            out = planes::add_two(out, a.row, b.row);
            unseen = b.rest;
        }
        out
    }
}

// The in-degrees in a set of the badges of one side, counted at order k: each lane has k, less the in-degree, above the largest number that is below half of
// what there is room for. So the last plane has the badges whose in-degree is below k.
fn count_side(rows: &[u64; ROW_WORDS], s: BadgeSet, k: usize, side: usize) -> Planes
    requires { (1 ≤ k) × (k ≤ half) × (side < set_words) }
    ensures { CountingSide (graph rows.now) (members s) k side (planes_of result) }
{
    let mut sums = planes::constant((planes::HALF - k) as u64);
    for i in 0..SET_WORDS {
        let from = i * WORD_BITS;
        sums = SideRows { rows, from, side }.add(sums, s.word(i));
    }
    planes::complement(sums)
}

// The in-degrees in a set, counted at order k; those of the upper word where the set has badges there.
pub(crate) fn count(rows: &[u64; ROW_WORDS], s: BadgeSet, k: usize) -> Degrees
    requires { (1 ≤ k) × (k ≤ half) }
    ensures { Counting (graph rows.now) (members s) k (number_of result) }
{
    let low = count_side(rows, s, k, 0);
    if s.word(1) == 0 {
        return Degrees {
            low,
            high: planes::constant(0),
        };
    }
    Degrees {
        low,
        high: count_side(rows, s, k, 1),
    }
}

// Counts the members of a set no longer, for the badges of one side.
fn discount_side(p: Planes, rows: &[u64; ROW_WORDS], s: BadgeSet, side: usize) -> Planes
    requires { side < set_words }
    ensures { AddsSide (in_degree (graph rows.now) (members s)) side (planes_of p) (planes_of result) }
{
    let lower = SideRows {
        rows,
        from: 0,
        side,
    };
    let upper = SideRows {
        rows,
        from: WORD_BITS,
        side,
    };
    upper.discount(lower.discount(p, s.word(0)), s.word(1))
}

// Counts the members of a set no longer, for the badges that are left.
pub(crate) fn discount(d: Degrees, rows: &[u64; ROW_WORDS], s: BadgeSet, left: BadgeSet) -> Degrees
    ensures { Raised (members left) (in_degree (graph rows.now) (members s)) (number_of d) (number_of result) }
{
    let low = discount_side(d.low, rows, s, 0);
    let high = d.high;
    if left.word(1) == 0 {
        return Degrees { low, high };
    }
    Degrees {
        low,
        high: discount_side(high, rows, s, 1),
    }
}

// Counts the badges that are left at the next order.
pub(crate) fn raise(d: Degrees, left: BadgeSet) -> Degrees
    ensures { Raised (members left) (λ v. 1) (number_of d) (number_of result) }
{
    let low = planes::add(d.low, planes::EVERY);
    let high = d.high;
    if left.word(1) == 0 {
        return Degrees { low, high };
    }
    Degrees {
        low,
        high: planes::add(high, planes::EVERY),
    }
}

// The badges that are counted below the order.
pub(crate) fn below(d: Degrees) -> BadgeSet
    ensures { Reached half (number_of d) (members result) }
{
    BadgeSet::from_words(d.low.p7, d.high.p7)
}

// The largest number in the lanes of a set's badges.
pub(crate) fn largest(d: Degrees, s: BadgeSet) -> usize
    ensures { LargestOf (members s) (number_of d) result }
{
    let low = planes::largest(d.low, s.word(0));
    let upper = s.word(1);
    if upper == 0 {
        return low;
    }
    low.max(planes::largest(d.high, upper))
}
