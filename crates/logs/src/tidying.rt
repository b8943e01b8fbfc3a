// The call that takes a log to its tidy log.
ghost use Rattle.std.specs.Prelude.{◌≡◌};
ghost use Rattle.logs.specs.Calls.{tidy_of, written_outcome};

use crate::day::Day;
use crate::writing::{deliver, encode_day};
use days::read;
use records::{MAX_LOG_BYTES, Refusal};

// Reads a log into the work words that are lent, writes its tidy log into the buffer, and answers the number of bytes. Refused by the
// log, 8 and 9, in that order. Once the log and 8 are passed, the first 2×n×T work words hold the day, also on a refusal by 9; otherwise a
// refused call changes nothing. Words after the first 2×n×T and bytes after the answer are never touched. A tidy log has no more contact
// records than the log that came in, so its number is there, as is room for it, and nothing is to be tested.
pub fn tidy(log: &[u8], work: &mut [u64], buffer: &mut [u8]) -> Result<usize, Refusal>
    ensures answer { written_outcome result ≡ (tidy_of log.now work.old buffer.old).answer }
    ensures words { work.new ≡ (tidy_of log.now work.old buffer.old).words }
    ensures leaves { buffer.new ≡ (tidy_of log.now work.old buffer.old).buffer }
{
    let accepted = read(log, work)?;
    let day = Day {
        words: work,
        badges: accepted.badges,
        ticks: accepted.ticks,
    };
    let mut tidied = [0u8; MAX_LOG_BYTES];
    let count = encode_day(&day, &mut tidied).unwrap();
    deliver(&tidied[..10 + 6 * count], buffer)
}
