// Records put into a buffer in their bytes.
ghost use Rattle.std.specs.Prelude.{◌≡◌, ◌∷◌, [], ◌≤◌};
ghost use Rattle.records.specs.Limits.{max_contacts};
ghost use Rattle.records.specs.Records.{encode};
ghost use Rattle.logs.specs.Buffers.{place};
ghost use Rattle.logs.specs.Writing.{Appends};

use records::{MAX_CONTACTS, MAX_LOG_BYTES, Record};

// Lays bytes over a buffer from an offset on. Where the buffer does not hold them there, it stays as it is. (By index: the library's copy calls
// `memmove`, and whoever links the calls for C owes them only `memcpy` and `memset`; of what is written through an adapter of `iter_mut` a proof knows nothing.)
pub fn put(buffer: &mut [u8], at: usize, bytes: &[u8])
    ensures { buffer.new ≡ place at bytes.now buffer.old }
{
    if buffer.len() < bytes.len() {
        return;
    }
    if buffer.len() - bytes.len() < at {
        return;
    }
    for i in 0..bytes.len() {
        buffer[at + i] = bytes[i];
    }
}

// Puts a record, in its bytes, at an offset. Where the buffer does not hold it there, it stays as it is.
pub fn put_record(buffer: &mut [u8], at: usize, record: Record)
    ensures { buffer.new ≡ place at (encode «record») buffer.old }
{
    match record {
        Record::Header { badges, ticks } => {
            let bytes = [b'B', b'H', badges, ticks];
            put(buffer, at, &bytes);
        }
        Record::Contact { a, b, first, last } => {
            let bytes = [b'C', b'T', a, b, first, last];
            put(buffer, at, &bytes);
        }
        Record::End { count } => {
            let [lowest, second, third, highest] = count.to_le_bytes();
            let bytes = [b'E', b'D', lowest, second, third, highest];
            put(buffer, at, &bytes);
        }
    }
}

// Appends a contact record to the count that are in a log, and answers how many there are then: none where it would be one too many.
// (The log and its count stay two parameters: a struct that lends the log makes no contract shorter, and one that owns it is 48,010 bytes to hand over.)
pub(crate) fn append_contact(
    log: &mut [u8; MAX_LOG_BYTES],
    count: usize,
    a: u8,
    b: u8,
    first: u8,
    last: u8,
) -> Option<usize>
    requires { count ≤ max_contacts }
    ensures { Appends (Record.Contact a b first last ∷ []) count result log.old log.new }
{
    if MAX_CONTACTS <= count {
        return None;
    }
    put_record(log, 4 + 6 * count, Record::Contact { a, b, first, last });
    Some(count + 1)
}
