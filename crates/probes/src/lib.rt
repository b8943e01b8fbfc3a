// Calls that C does not have, exported for the tests in Rust alone: the listing in pieces, and the cores of any rows. Each function is thin over
// public functions, which its comment names, and leaves what they leave. A slice is a pointer and a length, an array a pointer.

#![tactic(auto)]

mod answers;

ghost use Rattle.std.specs.Prelude.{◌≡◌, get_or};
ghost use Rattle.sets.specs.Members.{set_of_two};
ghost use Rattle.cores.specs.Rows.{graph, core_numbers, IsPeeled, IsHighest};
ghost use Rattle.innermost.specs.Columns.{transposed};
ghost use Rattle.probes.specs.Listings.{listed_of, lines_of};

use answers::listing_answer;
use sets::{BadgeSet, CAPACITY, ROW_WORDS};

// text::prepare of a log, and then text::lines, from a line on, of what it answers and leaves.
#[unsafe(no_mangle)]
pub extern "C" fn probe_listing(
    log: &[u8],
    words: &mut [u64],
    report: &mut [u8],
    from: usize,
    out: &mut [u8],
    answer: &mut [u64; 5],
)
    ensures answer { answer.new ≡ (listed_of log.now words.old report.old from out.old).answer }
    ensures words { words.new ≡ (listed_of log.now words.old report.old from out.old).words }
    ensures report { report.new ≡ (listed_of log.now words.old report.old from out.old).report }
    ensures leaves { out.new ≡ (listed_of log.now words.old report.old from out.old).out }
{
    let prepared = text::prepare(log, words, report);
    let piece = text::lines(prepared, report, from, out);
    *answer = listing_answer(prepared, piece);
}

// text::lines, from a line on, of a report of so many bytes that prepare left.
#[unsafe(no_mangle)]
pub extern "C" fn probe_lines(
    size: usize,
    report: &[u8],
    from: usize,
    out: &mut [u8],
    answer: &mut [u64; 5],
)
    ensures answer { answer.new ≡ (lines_of size report.now from out.old).answer }
    ensures leaves { out.new ≡ (lines_of size report.now from out.old).out }
{
    let prepared = Ok(size);
    let piece = text::lines(prepared, report, from, out);
    *answer = listing_answer(prepared, piece);
}

// cores::peel: the answer has the members of the core, as a set in two numbers, and their least degree.
#[unsafe(no_mangle)]
pub extern "C" fn probe_peel(
    rows: &[u64; ROW_WORDS],
    base_low: u64,
    base_high: u64,
    order: usize,
    out: &mut [u64; ROW_WORDS],
    answer: &mut [u64; 3],
)
    ensures { IsPeeled rows.now (set_of_two base_low base_high) order out.new (set_of_two (get_or answer.new 0 0) (get_or answer.new 1 0)) (get_or answer.new 2 0) }
{
    let peeled = cores::peel(*rows, BadgeSet::from_words(base_low, base_high), order);
    let left = peeled.rows;
    *out = left;
    let members = peeled.members;
    *answer = [members.low, members.high, peeled.least as u64];
}

// cores::core_numbers.
#[unsafe(no_mangle)]
pub extern "C" fn probe_core_numbers(
    rows: &[u64; ROW_WORDS],
    base_low: u64,
    base_high: u64,
    out: &mut [u8; CAPACITY],
)
    ensures { out.new ≡ core_numbers rows.now (set_of_two base_low base_high) }
{
    *out = cores::core_numbers(*rows, BadgeSet::from_words(base_low, base_high));
}

// innermost::highest_core: the answer has the order of the core and its members, as a set in two numbers.
#[unsafe(no_mangle)]
pub extern "C" fn probe_highest_core(
    rows: &[u64; ROW_WORDS],
    base_low: u64,
    base_high: u64,
    query_low: u64,
    query_high: u64,
    above: u8,
    most: u8,
    out: &mut [u64; ROW_WORDS],
    answer: &mut [u64; 3],
)
    ensures { IsHighest (transposed (graph rows.now) (set_of_two base_low base_high)) rows.now (set_of_two base_low base_high) (set_of_two query_low query_high) above most (get_or answer.new 0 0) (set_of_two (get_or answer.new 1 0) (get_or answer.new 2 0)) out.new }
{
    let core = innermost::highest_core(
        *rows,
        BadgeSet::from_words(base_low, base_high),
        BadgeSet::from_words(query_low, query_high),
        above,
        most,
    );
    let left = core.rows;
    *out = left;
    let members = core.members;
    *answer = [core.order as u64, members.low, members.high];
}
