// The listing in pieces of whole lines.
ghost use Rattle.std.specs.Prelude.{◌≡◌};
ghost use Rattle.groups.specs.Refusals.{written_outcome};
ghost use Rattle.text.specs.Pieces.{piece_of};
ghost use Rattle.text.specs.Calls.{shown_lines};

use crate::shown::{line_count, make_line};
use groups::Refusal;
use logs::put;

// How far a piece came: the place of the next line, and the number of bytes written.
#[derive(Clone, Copy)]
pub struct Piece {
    pub next: usize,
    pub bytes: usize,
}

// Fills a buffer with as many whole lines as it holds, from a place on, of those that prepare's answer shows with the report that it left.
// Bytes after them are never touched. No line of a listing has more than 434 bytes: with a buffer of 434 or more each call gives a line until
// there is none, and then 0 bytes.
pub fn lines(answer: Result<usize, Refusal>, report: &[u8], from: usize, buffer: &mut [u8]) -> Piece
    ensures next { result.next ≡ (piece_of (shown_lines (written_outcome answer) report.now) from buffer.old).next }
    ensures bytes { result.bytes ≡ (piece_of (shown_lines (written_outcome answer) report.now) from buffer.old).bytes }
    ensures leaves { buffer.new ≡ (piece_of (shown_lines (written_outcome answer) report.now) from buffer.old).buffer }
{
    let count = line_count(answer, report);
    let mut at: usize = 0;
    for next in from..count {
        let line = make_line(answer, report, next);
        let bytes = line.as_slice();
        if buffer.len() - at < bytes.len() {
            return Piece { next, bytes: at };
        }
        put(buffer, at, bytes);
        at += bytes.len();
    }
    Piece {
        next: from.max(count),
        bytes: at,
    }
}
