// The core of the highest order, by in-degrees that are counted in lanes while the order rises.
ghost use Rattle.std.specs.Prelude.{◌≡◌, true, false, ◌≤◌, ◌<◌, ltb, MatchOption};
ghost use Rattle.sets.specs.Bools.{◌and◌};
ghost use Rattle.sets.specs.Members.{members, capacity};
ghost use Rattle.sets.specs.Sets.{is_sub};
ghost use Rattle.planes.specs.Lanes.{half};
ghost use Rattle.cores.specs.Rows.{graph, IsHighest};
ghost use Rattle.cores.specs.Orders.{contains, HighestFound};
ghost use Rattle.innermost.specs.Columns.{transposed};
ghost use Rattle.innermost.specs.Degrees.{number_of, Counting};
ghost use Rattle.innermost.specs.Rising.{Settled, Climbing};

use crate::lanes::{Degrees, below, count, discount, largest, raise};
use sets::{BadgeSet, CAPACITY, ROW_WORDS};

// A core: its order, its members, and the rows that it was found in.
#[derive(Clone, Copy)]
pub struct Core {
    pub order: u8,
    pub members: BadgeSet,
    pub rows: [u64; ROW_WORDS],
}

// The order and the members of a core.
#[derive(Clone, Copy)]
pub struct Found {
    pub order: u8,
    pub members: BadgeSet,
}

// A set of badges, and its in-degrees counted at an order.
#[derive(Clone, Copy)]
struct Counted {
    members: BadgeSet,
    degrees: Degrees,
}

// Where to begin: the highest core that is known, and the in-degrees in the base counted at the order after its own.
#[derive(Clone, Copy)]
struct Beginning {
    found: Found,
    degrees: Degrees,
}

// Where so many orders are to be tried, the first is found by the least in-degree.
const MANY: u8 = 16;

// Whether a set is there and contains the query.
fn contains(s: BadgeSet, query: BadgeSet) -> bool
    ensures { result ≡ (ltb 0 (members s) and is_sub (members query) (members s)) }
{
    !s.is_empty() && query.is_subset(s)
}

// Drops the badges whose in-degree is below the order, all at once, until there is none: what is left is a core. There is none that contains the query
// where fewer badges are left than the order asks, or not the whole query. (No `for`, since nothing is counted: badges are dropped until none is low.)
fn settle(rows: &[u64; ROW_WORDS], given: Counted, query: BadgeSet, k: usize) -> Option<Counted>
    requires counted { (1 ≤ k) × (k ≤ half) × Counting (graph rows.now) (members given.members) k (number_of given.degrees) }
    requires contained { (ltb 0 (members given.members) and is_sub (members query) (members given.members)) ≡ true }
    ensures { MatchOption result (contains (transposed (graph rows.now) (members given.members)) (members given.members) (members query) k ≡ false) (λ c. Settled (graph rows.now) (members given.members) (members query) k (members c.members) (number_of c.degrees)) }
{
    let mut left = given;
    loop {
        let low = left.members.intersection(below(left.degrees));
        if low.is_empty() {
            return Some(left);
        }
        let fewer = left.members.difference(low);
        if fewer.size() < k || !query.is_subset(fewer) {
            return None;
        }
        left = Counted {
            members: fewer,
            degrees: discount(left.degrees, rows, low, fewer),
        };
    }
}

// Where to begin, for orders above one and up to another, in a base that contains the query. The base is the core of every order up to its least
// in-degree: where many orders are to be tried, those up to it are left out. After the last order nothing is counted.
fn start(rows: &[u64; ROW_WORDS], base: BadgeSet, query: BadgeSet, above: u8, stop: u8) -> Beginning
    requires { (above < stop) × (stop ≤ capacity) × ((ltb 0 (members base) and is_sub (members query) (members base)) ≡ true) }
    ensures { Climbing (graph rows.now) (members base) (members query) above stop result.found.order (members result.found.members) (members base) (number_of result.degrees) }
{
    let degrees = count(rows, base, usize::from(above) + 1);
    let lowest = Beginning {
        found: Found {
            order: above,
            members: BadgeSet::EMPTY,
        },
        degrees,
    };
    if stop - above < MANY {
        return lowest;
    }
    let least = usize::from(above) + planes::HALF - largest(degrees, base);
    if least <= usize::from(above) {
        return lowest;
    }
    let order = least.min(usize::from(stop)) as u8;
    let found = Found {
        order,
        members: base,
    };
    if order == stop {
        return Beginning { found, degrees };
    }
    Beginning {
        found,
        degrees: count(rows, base, usize::from(order) + 1),
    }
}

// The core of the largest order above one order and up to another that contains the query, in a base that contains it.
fn climb(rows: &[u64; ROW_WORDS], base: BadgeSet, query: BadgeSet, above: u8, stop: u8) -> Found
    requires { (above < stop) × (stop ≤ capacity) × ((ltb 0 (members base) and is_sub (members query) (members base)) ≡ true) }
    ensures { HighestFound (transposed (graph rows.now) (members base)) (members base) (members query) above stop result.order (members result.members) }
{
    let begin = start(rows, base, query, above, stop);
    let mut found = begin.found;
    let mut left = Counted {
        members: base,
        degrees: begin.degrees,
    };
    for order in begin.found.order..stop {
        let Some(core) = settle(rows, left, query, usize::from(order) + 1) else {
            break;
        };
        let members = core.members;
        found = Found {
            order: order + 1,
            members,
        };
        left = Counted {
            members,
            degrees: raise(core.degrees, members),
        };
    }
    found
}

// The core of the largest order above one given order and up to another, among the badges of a base set, that contains the query; the lower
// order and no members where there is none. It is a core of the transposed graph: the degree of a badge is the number of members in whose
// row it is. For symmetric rows that is the graph itself. (No Option, since it promises the lower order too where there is no core.)
pub fn highest(
    rows: &[u64; ROW_WORDS],
    base: BadgeSet,
    query: BadgeSet,
    above: u8,
    most: u8,
) -> Found
    ensures { HighestFound (transposed (graph rows.now) (members base)) (members base) (members query) above most result.order (members result.members) }
{
    let nothing = Found {
        order: above,
        members: BadgeSet::EMPTY,
    };
    if !contains(base, query) {
        return nothing;
    }
    let stop = most.min(CAPACITY as u8);
    if stop <= above {
        return nothing;
    }
    climb(rows, base, query, above, stop)
}

// The same core: the rows go in by value, and come back with it. Between members they have its pairs; what a caller does next, it does with them. Both forms
// are public, and a promise to callers, so that neither of them and neither of their types goes into the other.
pub fn highest_core(
    rows: [u64; ROW_WORDS],
    base: BadgeSet,
    query: BadgeSet,
    above: u8,
    most: u8,
) -> Core
    ensures { IsHighest (transposed (graph rows) (members base)) rows (members base) (members query) above most result.order (members result.members) result.rows }
{
    let found = highest(&rows, base, query, above, most);
    let members = found.members;
    Core {
        order: found.order,
        members,
        rows,
    }
}
