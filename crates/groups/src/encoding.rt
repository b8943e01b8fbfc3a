// Records of reports and plans, put into memory one after the other.
ghost use Rattle.std.specs.Prelude.{◌≡◌, ◌∷◌, [], ◌+◌, ◌*◌, ◌≤◌, length};
ghost use Rattle.sets.specs.Bytes.{little_endian};
ghost use Rattle.logs.specs.Buffers.{place};
ghost use Rattle.spans.specs.Encoding.{core_bytes, encode_core};
ghost use Rattle.groups.specs.Appending.{AppendsCores};
ghost use Rattle.groups.specs.Keeping.{core_of};

use logs::put;
use sets::BadgeSet;

// What a record of a report or a plan shows: the order of a core or the score of a part, its span, and its members.
#[derive(Clone, Copy)]
pub(crate) struct Shown {
    pub(crate) order: u8,
    pub(crate) first: u8,
    pub(crate) last: u8,
    pub(crate) members: BadgeSet,
}

// The bytes of a record with a mark and a set of 16 bytes, those of its two words. They start with the bytes of the same record with a shorter set.
fn record_bytes(mark: [u8; 2], shown: Shown) -> [u8; 21]
    ensures { result ≡ encode_core 16 mark (core_of shown) }
{
    let mut bytes = [0u8; 21];
    bytes[..2].copy_from_slice(&mark);
    bytes[2] = shown.order;
    bytes[3] = shown.first;
    bytes[4] = shown.last;
    bytes[5..13].copy_from_slice(&shown.members.word(0).to_le_bytes());
    bytes[13..].copy_from_slice(&shown.members.word(1).to_le_bytes());
    bytes
}

// Puts a record with a mark and a set of so many bytes at a place of a buffer. A plan's header is laid out alike: its mark, n, T, h, query.
pub(crate) fn put_core(buffer: &mut [u8], at: usize, mark: [u8; 2], width: usize, shown: Shown)
    requires { width ≤ 16 }
    ensures { buffer.new ≡ place at (encode_core width mark (core_of shown)) buffer.old }
{
    let bytes = record_bytes(mark, shown);
    let size = 5 + width;
    put(buffer, at, &bytes[0..size]);
}

// Appends a record with a mark and a set of so many bytes to so many that stand after a header of so many bytes, and answers how many there are then.
pub(crate) fn append_record(
    buffer: &mut [u8],
    header: usize,
    count: usize,
    mark: [u8; 2],
    width: usize,
    shown: Shown,
) -> usize
    requires { (width ≤ 16) × (header + core_bytes width * count + core_bytes width ≤ length buffer.old) }
    ensures { AppendsCores mark width header (core_of shown ∷ []) count result buffer.old buffer.new }
{
    put_core(buffer, header + (5 + width) * count, mark, width, shown);
    count + 1
}
