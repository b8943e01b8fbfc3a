// The judge of logs: record by record, each in document 01's order. The header has four bytes and every other record six, so record k after
// the header starts at 4 + 6k.
ghost use Rattle.std.specs.Prelude.{◌≡◌, ◌≤◌, IfOk};
ghost use Rattle.std.specs.Result.{IfErr};
ghost use Rattle.reference.specs.Verdicts.{Known, number_of, Judged};

use crate::bytes::{CONTACT_BYTES, HEADER_BYTES, rest_of};
use crate::limits::{MAX_BADGES, MAX_CONTACTS, MAX_TICKS};

// An accepted log: n badges, T ticks and so many contacts.
#[derive(Clone, Copy, PartialEq)]
pub struct Accepted {
    pub badges: usize,
    pub ticks: usize,
    pub contacts: usize,
}

// Why a log is refused, each with its number.
#[derive(Clone, Copy)]
pub enum Why {
    // The bytes end inside a record, or where one must start.
    CutShort = 1,
    // The mark is not BH for the first record, or not CT or ED later.
    WrongMark = 2,
    // n or T of the header outside its limits.
    HeaderOutOfLimits = 3,
    // Equal badges, a badge of n or more, first after last, or last of T or more.
    InvalidContact = 4,
    // A contact after as many as a log may have.
    TooManyContacts = 5,
    // The count of the end differs.
    WrongCount = 6,
    // Bytes follow the end.
    TrailingBytes = 7,
}

impl Why {
    // The refusal of a log for this, at an offset.
    fn at(self, offset: usize) -> Refusal
        ensures { result.why ≡ self }
    {
        Refusal { why: self, offset }
    }
}

// A refused log, and where.
#[derive(Clone, Copy)]
pub struct Refusal {
    pub why: Why,
    pub offset: usize,
}

impl Refusal {
    // The number of the refusal.
    pub fn number(self) -> usize
        ensures known { Known result }
        ensures value { result ≡ number_of self.why }
    {
        self.why as usize
    }
}

// What judging a log comes to.
pub type Judgement = Result<Accepted, Refusal>;

// Whether a number is above 0 and within a limit.
fn in_limits(number: u8, limit: usize) -> bool {
    0 < number && usize::from(number) <= limit
}

// n and T of the header that a log begins with.
fn judge_header(log: &[u8]) -> Result<(u8, u8), Refusal>
    ensures { IfErr result (λ refusal. number_of refusal.why ≤ 3) }
{
    match log {
        [] | [_] => Err(Why::CutShort.at(0)),
        [b'B', b'H', n, ticks, ..] if in_limits(*n, MAX_BADGES) && in_limits(*ticks, MAX_TICKS) => {
            Ok((*n, *ticks))
        }
        [b'B', b'H', _, _, ..] => Err(Why::HeaderOutOfLimits.at(0)),
        [b'B', b'H', ..] => Err(Why::CutShort.at(0)),
        _ => Err(Why::WrongMark.at(0)),
    }
}

// Whether a record is a contact of two of n badges, a and b, in a span of T ticks.
fn is_contact(record: &[u8], n: u8, ticks: u8) -> bool {
    match record {
        [b'C', b'T', a, b, first, last] => {
            a != b && *a < n && *b < n && first <= last && *last < ticks
        }
        _ => false,
    }
}

// How many contacts follow the header before anything else: no more than a log may have.
fn count_contacts(log: &[u8], n: u8, ticks: u8) -> usize
    ensures { result ≤ 8000 }
{
    rest_of(log, HEADER_BYTES)
        .chunks(CONTACT_BYTES)
        .take(MAX_CONTACTS)
        .take_while(|record| is_contact(record, n, ticks))
        .count()
}

// Judges the record after so many contacts, which is no valid one or one too many: it has to be an end with their count, and the last.
fn judge_end(log: &[u8], contacts: usize) -> Result<(), Refusal>
    requires { contacts ≤ 8000 }
{
    let at = HEADER_BYTES + CONTACT_BYTES * contacts;
    match rest_of(log, at) {
        [] | [_] => Err(Why::CutShort.at(at)),
        [b'C', b'T', ..] if contacts == MAX_CONTACTS => Err(Why::TooManyContacts.at(at)),
        [b'C', b'T', _, _, _, _, ..] => Err(Why::InvalidContact.at(at)),
        [b'E', b'D', a, b, c, d, after @ ..] => {
            if u32::from_le_bytes([*a, *b, *c, *d]) as usize != contacts {
                Err(Why::WrongCount.at(at))
            } else if after.is_empty() {
                Ok(())
            } else {
                Err(Why::TrailingBytes.at(at + CONTACT_BYTES))
            }
        }
        [b'C', b'T', ..] | [b'E', b'D', ..] => Err(Why::CutShort.at(at)),
        _ => Err(Why::WrongMark.at(at)),
    }
}

// The whole log.
pub fn judge(log: &[u8]) -> Judgement
    ensures { IfOk result (λ log. Judged log.badges log.ticks log.contacts) }
{
    let (n, ticks) = judge_header(log)?;
    let contacts = count_contacts(log, n, ticks);
    judge_end(log, contacts)?;
    Ok(Accepted {
        badges: usize::from(n),
        ticks: usize::from(ticks),
        contacts,
    })
}
