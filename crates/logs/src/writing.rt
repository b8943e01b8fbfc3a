// The call that writes a day's words as a tidy log.
ghost use Rattle.std.specs.Prelude.{◌≡◌};
ghost use Rattle.records.specs.Outcomes.{success};
ghost use Rattle.logs.specs.Buffers.{deliver};
ghost use Rattle.logs.specs.Writing.{Encodes};
ghost use Rattle.logs.specs.Calls.{write_of, written_outcome};

use crate::day::Day;
use crate::encoding::{put, put_record};
use crate::pairs::append_row;
use checks::check_words;
use records::{MAX_LOG_BYTES, Record, Refusal};

// Puts an answer, in its bytes, into the buffer that is lent, if the buffer holds it, and answers how many they are. Refused by 9, and then no byte is
// changed; bytes after the answer are never touched.
#[tactic(auto, using(crate::proofs::Delivering::delivers))]
pub fn deliver(bytes: &[u8], buffer: &mut [u8]) -> Result<usize, Refusal>
    ensures answer { written_outcome result ≡ (deliver (success bytes.now) buffer.old).answer }
    ensures leaves { buffer.new ≡ (deliver (success bytes.now) buffer.old).buffer }
{
    if buffer.len() < bytes.len() {
        return Err(Refusal::BufferTooShort);
    }
    put(buffer, 0, bytes);
    Ok(bytes.len())
}

// Encodes the tidy log of a day in memory that holds any log, and answers how many contact records it has: none where they are too
// many, and the log is then not whole.
pub(crate) fn encode_day(day: &Day<'_>, log: &mut [u8; MAX_LOG_BYTES]) -> Option<usize>
    ensures { Encodes day.now.badges day.now.ticks day.now.words.now result log.new }
{
    put_record(
        log,
        0,
        Record::Header {
            badges: day.badges as u8,
            ticks: day.ticks as u8,
        },
    );
    let mut count: usize = 0;
    for u in 0..day.badges {
        count = append_row(day, u, log, count)?;
    }
    put_record(
        log,
        4 + 6 * count,
        Record::End {
            count: count as u32,
        },
    );
    Some(count)
}

// Writes a day's words as a tidy log into the buffer that is lent, and answers the number of bytes. Refused by 10, 8, 11, 15 and 9, in that
// order; a refused call changes no byte, and bytes after the answer are never touched. The log is made once, in memory of its own, and
// measured; it is copied if there are not too many contact records and the buffer holds it.
pub fn write(
    words: &[u64],
    badges: usize,
    ticks: usize,
    buffer: &mut [u8],
) -> Result<usize, Refusal>
    ensures answer { written_outcome result ≡ (write_of badges ticks words.now buffer.old).answer }
    ensures leaves { buffer.new ≡ (write_of badges ticks words.now buffer.old).buffer }
{
    check_words(words, badges, ticks)?;
    let day = Day {
        words,
        badges,
        ticks,
    };
    let mut log = [0u8; MAX_LOG_BYTES];
    let Some(count) = encode_day(&day, &mut log) else {
        return Err(Refusal::TooManyToWrite);
    };
    deliver(&log[..10 + 6 * count], buffer)
}
