// The logs of several receivers, end to end in one buffer, each read into words of its own.
ghost use Rattle.std.specs.Prelude.{◌≡◌, ◌+◌, ◌-◌, ◌*◌, ◌≤◌, min, leb, length};
ghost use Rattle.series.specs.Series.{parts, judge_logs};
ghost use Rattle.days.specs.Series.{read_series_of, series_outcome};
ghost use Rattle.days.specs.SeriesSteps.{sizes_of, Fillable, Filled};

use crate::day::fill;
use crate::refusal::SeriesRefusal;
use crate::sizes::{Sizes, common, compared};
use records::{Refusal, judge_from};
use series::Size;
use sets::SET_WORDS;

// Where a log ends that starts at an offset and takes so many bytes, or as many as are left.
fn end_of(at: usize, length: usize, bytes: usize) -> usize
    requires { at ≤ bytes }
    ensures { result ≡ at + min length (bytes - at) }
{
    at + length.min(bytes - at)
}

// Judges the logs in their order, each within its own length, and then whether they have the same n and T.
fn judge_all(logs: &[u8], lengths: &[usize]) -> Result<Size, SeriesRefusal>
    ensures { series_outcome result ≡ sizes_of (judge_logs 0 (parts logs.now lengths.now)) }
{
    let mut sizes = Sizes::None;
    let mut at: usize = 0;
    for &length in lengths {
        let end = end_of(at, length, logs.len());
        let accepted = judge_from(&logs[..end], at)?;
        sizes = compared(sizes, Size::from(accepted));
        at = end;
    }
    common(sizes)
}

// Sets the first words to the days of accepted logs of one size, one after the other.
fn fill_all(logs: &[u8], lengths: &[usize], size: Size, words: &mut [u64])
    requires { Fillable logs.now lengths.now size.badges size.ticks (length words.old) }
    ensures { Filled logs.now lengths.now size.badges size.ticks words.old words.new }
{
    let mut at: usize = 0;
    let mut from: usize = 0;
    for &length in lengths {
        let end = end_of(at, length, logs.len());
        fill(&logs[at..end], size, &mut words[from..]);
        at = end;
        from += size.ticks * size.badges * SET_WORDS;
    }
}

// Whether so many days of so many words each fit into the words lent.
fn fits(count: usize, size: usize, words: usize) -> bool
    ensures { result ≡ leb (count * size) words }
{
    if size == 0 {
        return true;
    }
    count <= words / size
}

// Reads logs that lie end to end, as the lengths say, into the words that are lent: the day of each log after that of the log before it. All logs are
// judged first, in their order and with offsets from the start of the buffer; then whether they have the same n and T; then 8, where the words are
// fewer, or where there is less room than for one day. A refused call changes no word, and words after the days are never touched.
pub fn read_series(
    logs: &[u8],
    lengths: &[usize],
    room: usize,
    words: &mut [u64],
) -> Result<Size, SeriesRefusal>
    ensures answer { series_outcome result ≡ (read_series_of logs.now lengths.now room words.old).answer }
    ensures leaves { words.new ≡ (read_series_of logs.now lengths.now room words.old).words }
{
    let size = judge_all(logs, lengths)?;
    let day = size.ticks * size.badges * SET_WORDS;
    if room < day {
        return Err(SeriesRefusal::Log(Refusal::TooFewWords));
    }
    if !fits(lengths.len(), day, words.len()) {
        return Err(SeriesRefusal::Log(Refusal::TooFewWords));
    }
    fill_all(logs, lengths, size, words);
    Ok(size)
}
