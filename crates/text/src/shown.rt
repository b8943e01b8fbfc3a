// The lines that an answer shows, by their place.
ghost use Rattle.std.specs.Prelude.{◌≡◌, [], ◌+◌, ◌-◌, ◌/◌, ◌^◌, ◌≤◌, ◌<◌, length, get_or, take, drop};
ghost use Rattle.sets.specs.Bytes.{from_little_endian};
ghost use Rattle.spans.specs.Encoding.{form_of, core_bytes, head_badges, decode_core};
ghost use Rattle.groups.specs.Refusals.{written_outcome};
ghost use Rattle.text.specs.Calls.{shown_lines};
ghost use Rattle.text.specs.Making.{core_of, line_count};

use crate::line::{Group, Line, group_line, head_line, refusal_line};
use groups::{Reason, Refusal, set_bytes};
use logs::put;
use sets::BadgeSet;

// How many bytes a report's header and its end have, a record before its set, a word, and a record up to the upper word of its set.
const HEADER_BYTES: usize = 4;

const END_BYTES: usize = 6;

const CORE_HEAD_BYTES: usize = 5;

const WORD_BYTES: usize = 8;

const CORE_BYTES: usize = CORE_HEAD_BYTES + WORD_BYTES;

// The byte at a place, 0 after the last.
fn byte_at(bytes: &[u8], at: usize) -> u8
    ensures { result ≡ get_or bytes.now at 0 }
{
    bytes.get(at).copied().unwrap_or(0)
}

// So many bytes from a place on, or as many as there are.
fn bytes_at(bytes: &[u8], at: usize, size: usize) -> &[u8]
    ensures { result.now ≡ take size (drop at bytes.now) }
{
    let rest = &bytes[at.min(bytes.len())..];
    &rest[..size.min(rest.len())]
}

// The number that so many bytes say, eight at most, the lowest first.
fn word_at(bytes: &[u8], at: usize, size: usize) -> u64
    requires { size ≤ 8 }
    ensures { result ≡ from_little_endian (take size (drop at bytes.now)) }
{
    let mut word = [0u8; WORD_BYTES];
    put(&mut word, 0, bytes_at(bytes, at, size));
    u64::from_le_bytes(word)
}

// The bytes of a set in a report, whose third byte says how many badges there are.
fn width_of(report: &[u8]) -> usize
    ensures value { result ≡ (form_of (head_badges report.now)).set_bytes }
    ensures bounds { (8 ≤ result) × (result ≤ 16) }
{
    set_bytes(usize::from(byte_at(report, 2)))
}

// The group whose record, with a set of so many bytes, stands at a place of a report: its first 8 bytes say the lower word of the set, and those that
// follow, if there are any, the upper one.
fn group_at(report: &[u8], at: usize, width: usize) -> Group
    requires { (8 ≤ width) × (width ≤ 16) × (at + core_bytes width < 2 ^ 64) }
    ensures { core_of result ≡ decode_core width (drop at report.now) }
{
    let low = word_at(report, at + CORE_HEAD_BYTES, WORD_BYTES);
    let high = word_at(report, at + CORE_BYTES, width - WORD_BYTES);
    Group {
        order: byte_at(report, at + 2),
        first: byte_at(report, at + 3),
        last: byte_at(report, at + 4),
        members: BadgeSet::from_words(low, high),
    }
}

// How many records, with sets of so many bytes, a report of so many bytes has.
fn record_count(size: usize, width: usize) -> usize
    requires { width ≤ 16 }
    ensures { result ≡ (size - 10) / core_bytes width }
{
    size.saturating_sub(HEADER_BYTES + END_BYTES) / (CORE_HEAD_BYTES + width)
}

// How many lines an answer shows, with the report that it left.
pub(crate) fn line_count(answer: Result<usize, Refusal>, report: &[u8]) -> usize
    ensures { result ≡ line_count (written_outcome answer) report.now }
{
    match answer {
        Err(_) => 1,
        Ok(size) => record_count(size, width_of(report)) + 1,
    }
}

// The line at a place, of those that an answer shows: that of a refusal, or the first of a report, or that of a record.
pub(crate) fn make_line(answer: Result<usize, Refusal>, report: &[u8], i: usize) -> Line
    requires { i < line_count (written_outcome answer) report.now }
    ensures { result ≡ get_or (shown_lines (written_outcome answer) report.now) i [] }
{
    let width = width_of(report);
    match answer {
        Err(refusal) => refusal_line(refusal.number(), refusal.offset()),
        Ok(size) if i == 0 => {
            let groups = record_count(size, width);
            head_line(byte_at(report, 2), byte_at(report, 3), groups)
        }
        Ok(_) => {
            let at = HEADER_BYTES + (CORE_HEAD_BYTES + width) * (i - 1);
            group_line(group_at(report, at, width))
        }
    }
}
