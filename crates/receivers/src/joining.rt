// The call that joins the logs of several receivers into one day.
ghost use Rattle.std.specs.Prelude.{◌≡◌};
ghost use Rattle.receivers.specs.Refusals.{joined_outcome};
ghost use Rattle.receivers.specs.Joining.{join_of};

use crate::lengths::joinable;
use crate::quorum::combine;
use crate::refusal::Refusal;
use days::{Size, clear, read_series};
use sets::SET_WORDS;

// Joins from 2 to 4 logs that lie end to end, as the lengths say, into the words that are lent: the set at place t×n+u has badge v exactly when at least a quorum
// of the logs have u and v in contact in tick t. Refused by 18, the logs in their order, 19 and 8; a refused call changes no word. The first 2×n×T work
// words for each log end as zero, and words after these and after the first 2×n×T are never touched.
pub fn join(
    logs: &[u8],
    lengths: &[usize],
    quorum: usize,
    words: &mut [u64],
    work: &mut [u64],
) -> Result<Size, Refusal>
    ensures answer { joined_outcome result ≡ (join_of logs.now lengths.now quorum words.old work.old).answer }
    ensures leaves { words.new ≡ (join_of logs.now lengths.now quorum words.old work.old).words }
    ensures clears { work.new ≡ (join_of logs.now lengths.now quorum words.old work.old).work }
{
    if !joinable(logs.len(), lengths, quorum) {
        return Err(Refusal::InvalidReceivers);
    }
    let size = read_series(logs, lengths, words.len(), work)?;
    let day = size.ticks * size.badges * SET_WORDS;
    combine(work, lengths.len(), day, quorum, words);
    clear(&mut work[..lengths.len() * day]);
    Ok(size)
}
