// The call that reads a log and makes the report of its groups.
ghost use Rattle.std.specs.Prelude.{◌≡◌};
ghost use Rattle.groups.specs.Refusals.{written_outcome};
ghost use Rattle.text.specs.Calls.{prepare_of};

use groups::{Refusal, Thresholds, report};
use logs::read;
use sets::BadgeSet;

// Reads a log into the words that are lent, and puts the plain report of its day's groups, with all badges under review, into the buffer that is lent.
// Answers the number of the report's bytes. Refused by what read and report refuse by, and then the buffer is as it was. 24,576 words and 1,042,282
// bytes are enough for every log; the listing program lends 12,288 words, enough for every day of up to 64 badges, and 65,536 bytes, and shows refusal 8 for a
// day that needs more words, and 9 for a longer report.
pub fn prepare(log: &[u8], words: &mut [u64], buffer: &mut [u8]) -> Result<usize, Refusal>
    ensures answer { written_outcome result ≡ (prepare_of log.now words.old buffer.old).answer }
    ensures words { words.new ≡ (prepare_of log.now words.old buffer.old).words }
    ensures leaves { buffer.new ≡ (prepare_of log.now words.old buffer.old).report }
{
    let accepted = read(log, words)?;
    let all = BadgeSet::full(accepted.badges);
    report(
        words,
        accepted.badges,
        accepted.ticks,
        all,
        Thresholds::PLAIN,
        buffer,
    )
}
