// The listing of a log, as text, in pieces of whole lines.
//
// `prepare` reads a log into day words and puts the report of its groups into a buffer. `lines` then fills a buffer with the next whole
// lines, and answers how far it came: called again and again from where it came to, it gives the listing, piece by piece.

#![tactic(auto)]

mod line;
mod pieces;
mod preparing;
mod shown;

pub use groups::{Reason, Refusal};
pub use pieces::{Piece, lines};
pub use preparing::prepare;
