// The call that takes a log into day words.
ghost use Rattle.std.specs.Prelude.{◌≡◌};
ghost use Rattle.records.specs.Verdicts.{verdict_outcome};
ghost use Rattle.days.specs.Calls.{read_of};

use crate::day::fill;
use records::{Accepted, Refusal, judge};
use series::Size;
use sets::SET_WORDS;

// Reads a log into the words that are lent: the set at place t×n+u, in word 2(t×n+u) and the next, has badge v exactly when u and v are in contact
// in tick t.
// The whole log is judged first, then 8; a refused call changes no word, and words after the first 2×n×T are never touched.
pub fn read(log: &[u8], words: &mut [u64]) -> Result<Accepted, Refusal>
    ensures answer { verdict_outcome result ≡ (read_of log.now words.old).answer }
    ensures leaves { words.new ≡ (read_of log.now words.old).words }
{
    let accepted = judge(log)?;
    let size = Size::from(accepted);
    if words.len() < size.ticks * size.badges * SET_WORDS {
        return Err(Refusal::TooFewWords);
    }
    fill(log, size, words);
    Ok(accepted)
}
