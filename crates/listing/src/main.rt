// The listing program: reads a log from standard input and writes the listing of its groups, each circle as one, or of its refusal.

#![tactic(auto)]

ghost use Rattle.std.specs.Prelude.{◌≤◌, length, IfOk};

use std::io;
use std::io::Read;
use text::{Refusal, lines, prepare};

// A line for each group, and the first: a report of 65,536 bytes has at most 5,040 groups, of 13 bytes each and 10 beside them.
const MOST_LINES: usize = 5041;

// Reads until a buffer is full or the input ends, and answers how many bytes it put at the start of the buffer. (No `for`: a read says how far it came.)
fn read_full<R: Read>(input: &mut R, buffer: &mut [u8]) -> io::Result<usize>
    ensures { IfOk result (λ size. size ≤ length buffer.new) }
{
    let mut done = 0;
    while done < buffer.len() {
        let size = input.read(&mut buffer[done..])?;
        if size == 0 {
            break;
        }
        done += size;
    }
    Ok(done)
}

// Writes the next lines from a place on, as many as a buffer holds, and answers the place of the line after them: the same place where
// there is no line left.
fn write_some(
    rt: &impl Print,
    answer: Result<usize, Refusal>,
    report: &[u8],
    from: usize,
) -> io::Result<usize> {
    let mut buffer = [0u8; 65536];
    let piece = lines(answer, report, from, &mut buffer);
    let size = piece.bytes;
    rt.write_all(&buffer[..size])?;
    Ok(piece.next)
}

// Writes all lines. A buffer holds at least one of them.
fn write_listing(rt: &impl Print, answer: Result<usize, Refusal>, report: &[u8]) -> io::Result<()> {
    let mut from: usize = 0;
    for _ in 0..MOST_LINES {
        let next = write_some(rt, answer, report, from)?;
        if next == from {
            return Ok(());
        }
        from = next;
    }
    Ok(())
}

// A log has at most 48,010 bytes, so 48,011 tell whether one follows; 12,288 words are enough for every day of up to 64 badges. A day that needs more is refused by
// 8, and a report of more than 65,536 bytes by 9.
fn main(rt: HostRuntime) -> io::Result<()> {
    let mut log = [0u8; 48011];
    let size = read_full(&mut rt.stdin(), &mut log)?;
    let mut words = [0u64; 12288];
    let mut report = [0u8; 65536];
    let answer = prepare(&log[..size], &mut words, &mut report);
    write_listing(&rt, answer, &report)
}
