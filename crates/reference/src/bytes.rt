// Bytes that grow at their end, and the records that are spelled with them.
ghost use Rattle.std.specs.Prelude.{◌≤◌, length};

use crate::day::Span;

// How many bytes there is room for.
pub const ROOM: usize = 4096;

// What each byte of a buffer holds before a call.
pub const FILLER: u8 = 0xa5;

// The marks.
pub(crate) const BH: &[u8] = b"BH";

pub(crate) const CT: &[u8] = b"CT";

pub(crate) const ED: &[u8] = b"ED";

pub(crate) const RH: &[u8] = b"RH";

pub(crate) const GR: &[u8] = b"GR";

pub(crate) const PH: &[u8] = b"PH";

pub(crate) const PT: &[u8] = b"PT";

// How many bytes the header of a log or a report has, the record of a contact, and that of a group or a part.
pub(crate) const HEADER_BYTES: usize = 4;

pub(crate) const CONTACT_BYTES: usize = 6;

pub(crate) const CORE_BYTES: usize = 13;

// The bytes from a position on; none past the end.
pub(crate) fn rest_of(bytes: &[u8], at: usize) -> &[u8] {
    bytes.get(at..).unwrap_or(&[])
}

// Bytes of a log, a report or a plan: those in front, after which each place holds the filler. What finds no room is left out, byte by byte. (No
// `ArrayVec`, which is no `Copy` type.)
#[derive(Clone, Copy)]
pub struct Bytes {
    bytes: [u8; ROOM],
    len: usize,
    ghost fits: { len ≤ 4096 },
}

impl Bytes {
    ghost use Rattle.std.specs.Prelude.{◌≡◌, take};

    // No bytes.
    pub(crate) fn new() -> Bytes
        ensures { result.len ≡ 0 }
    {
        Bytes {
            bytes: [FILLER; ROOM],
            len: 0,
        }
    }

    pub fn as_slice(&self) -> &[u8]
        ensures value { result.now ≡ take self.now.len self.now.bytes }
        ensures fits { length result.now ≤ 4096 }
    {
        &self.bytes[..self.len]
    }

    pub fn len(&self) -> usize
        ensures value { result ≡ self.now.len }
        ensures fits { result ≤ 4096 }
    {
        self.as_slice().len()
    }

    // Changes a byte, if there is one.
    pub(crate) fn set(&mut self, at: usize, value: u8) {
        if at < self.len {
            self.bytes[at] = value;
        }
    }

    // Cuts the end off, or puts fillers after it, so that there are so many bytes.
    pub(crate) fn resize(&mut self, len: usize) {
        let kept = self.len.min(len);
        self.bytes[kept..].fill(FILLER);
        self.len = len.min(ROOM);
    }

    fn put(&mut self, byte: u8) {
        if self.len < ROOM {
            self.bytes[self.len] = byte;
            self.len += 1;
        }
    }

    fn put_all(&mut self, bytes: &[u8]) {
        for byte in bytes {
            self.put(*byte);
        }
    }

    // The lowest eight bits of a number.
    pub(crate) fn put_number(&mut self, number: usize) {
        self.put((number % 256) as u8);
    }

    // The mark of a record, and fields of one byte each.
    pub(crate) fn put_record(&mut self, mark: &[u8], fields: &[usize]) {
        self.put_all(mark);
        for field in fields {
            self.put_number(*field);
        }
    }

    // The record of a contact.
    pub(crate) fn put_contact(&mut self, a: usize, b: usize, span: Span) {
        self.put_record(CT, &[a, b, span.first, span.last]);
    }

    // The record of a group or a part: its order, its span, and its members in eight bytes. The header of a plan is laid out in the same way.
    pub(crate) fn put_core(&mut self, mark: &[u8], fields: &[usize; 3], members: u64) {
        self.put_record(mark, fields);
        self.put_all(&members.to_le_bytes());
    }

    // The end, with the number of records before it in four bytes.
    pub(crate) fn put_end(&mut self, count: usize) {
        self.put_all(ED);
        self.put_all(&count.to_le_bytes()[..4]);
    }
}
