// The call that traces an exposure.
ghost use Rattle.std.specs.Prelude.{◌≡◌};
ghost use Rattle.days.specs.Days.{LentDay};
ghost use Rattle.logs.specs.Buffers.{deliver};
ghost use Rattle.chains.specs.Judging.{start_judged};
ghost use Rattle.trace.specs.Refusals.{written_outcome};
ghost use Rattle.trace.specs.Calls.{trace_of};
ghost use Rattle.trace.specs.Tracing.{Traced};

use crate::refusal::Refusal;
use crate::sweeping::sweep;
use logs::check_words;

// Puts the trace of a day whose words have passed into the buffer that is lent: judged by 22 and 9. It has 2n bytes, so 9 is judged before anything is
// worked out.
fn trace_day(
    words: &[u64],
    badges: usize,
    ticks: usize,
    index: usize,
    start: usize,
    buffer: &mut [u8],
) -> Result<usize, Refusal>
    requires { LentDay badges ticks words.now }
    ensures answer { written_outcome result ≡ (deliver (start_judged badges ticks words.now index start) buffer.old).answer }
    ensures leaves { buffer.new ≡ (deliver (start_judged badges ticks words.now index start) buffer.old).buffer }
{
    if badges <= index {
        return Err(Refusal::InvalidStart);
    }
    if ticks <= start {
        return Err(Refusal::InvalidStart);
    }
    let size = badges + badges;
    if buffer.len() < size {
        return Err(Refusal::Log(logs::Refusal::BufferTooShort));
    }
    sweep(&mut buffer[..size], words, badges, ticks, index, start);
    Ok(size)
}

// Puts the trace from an index badge and a start tick on into the buffer that is lent: for each badge the earliest tick in which it can have been
// reached, 255 if never, and then for each badge its source, 255 where it has none (bytes that the papers give). Answers the number of bytes, 2n. Refused
// by 10, 8, 11, 22 and 9, in that order; a refused call changes no byte, and bytes after the answer are never touched.
pub fn trace(
    words: &[u64],
    badges: usize,
    ticks: usize,
    index: usize,
    start: usize,
    buffer: &mut [u8],
) -> Result<usize, Refusal>
    ensures answer { written_outcome result ≡ (trace_of badges ticks words.now index start buffer.old).answer }
    ensures leaves { buffer.new ≡ (trace_of badges ticks words.now index start buffer.old).buffer }
    ensures trace { Traced badges ticks words.now index start (written_outcome result) buffer.new }
{
    check_words(words, badges, ticks)?;
    trace_day(words, badges, ticks, index, start, buffer)
}
